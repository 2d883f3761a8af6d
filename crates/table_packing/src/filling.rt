// What is put into the packed table, each at its place; an obstacle or a waypoint past the room leaves it as it is.
ghost use Rattle.std.specs.Prelude.{◌≡◌};
ghost use Rattle.table_packing.specs.Filling.{with_count, with_ends, with_profile, with_box, PutsWaypoint};

use number_words::word;
use shapes::bounding_box::BoundingBox;
use shapes::profile::CircularProfile;
use shapes::waypoint::Waypoint;

// How many obstacles there are.
pub fn put_count(marks: &mut [u64; 417], n: usize)
    ensures { marks.new ≡ with_count marks.old n }
{
    marks[0] = n as u64;
}

// Where the waypoints of obstacle o begin and end.
#[tactic(auto, unfolding(crate::specs::Filling::with_ends))]
pub fn put_ends(marks: &mut [u64; 417], o: usize, first: usize, end: usize)
    ensures { marks.new ≡ with_ends marks.old o first end }
{
    if o < 32 {
        marks[4 * o + 1] = first as u64;
        marks[4 * o + 2] = end as u64;
    }
}

// Its profile and its conflict distance squared.
#[tactic(auto, unfolding(crate::specs::Filling::with_profile))]
pub fn put_profile(places: &mut [f64; 800], o: usize, p: CircularProfile, limit: f64)
    ensures { places.new ≡ with_profile places.old o p limit }
{
    if o < 32 {
        places[7 * o] = p.footprint;
        places[7 * o + 1] = p.follow;
        places[7 * o + 2] = limit;
    }
}

// Its box.
#[tactic(auto, unfolding(crate::specs::Filling::with_box))]
pub fn put_box(places: &mut [f64; 800], o: usize, b: BoundingBox)
    ensures { places.new ≡ with_box places.old o b }
{
    if o < 32 {
        places[7 * o + 3] = b.left;
        places[7 * o + 4] = b.bottom;
        places[7 * o + 5] = b.right;
        places[7 * o + 6] = b.top;
    }
}

// Waypoint i.
#[tactic(auto, unfolding(crate::specs::Filling::with_time, crate::specs::Filling::with_place))]
pub fn put_waypoint(marks: &mut [u64; 417], places: &mut [f64; 800], i: usize, w: Waypoint)
    ensures { PutsWaypoint i w marks.old marks.new places.old places.new }
{
    if i < 288 {
        marks[i + 129] = word::of_signed(w.time.0);
        places[2 * i + 224] = w.x;
        places[2 * i + 225] = w.y;
    }
}
