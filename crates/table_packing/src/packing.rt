// Lent lists of obstacles packed into the table, where they fit one another and its room (docs/RULES.md, 20.7, 3.5 and 4.2).
ghost use Rattle.std.specs.Prelude.{◌≡◌};
ghost use Rattle.table.specs.Lent.{lent_of};
ghost use Rattle.table.specs.Examined.{tiles, is_laid};
ghost use Rattle.table_packing.specs.Packing.{has_room_for, PutsWaypoints, PutsObstacles, Packs};

use crate::{boxes, filling};
use table::listed;

// Whether the starts begin at 0 and never fall, up to the count of waypoints.
#[tactic(auto, unfolding(table::specs::Examined::tiles))]
fn is_tiled(starts: &[usize], count: usize) -> bool
    ensures { result ≡ tiles starts.now count }
{
    let start = |o| listed::start_of(starts, count, o);
    start(0) == 0 && (0..starts.len()).all(|o| start(o) <= start(o + 1))
}

// Whether the lists fit one another.
#[tactic(auto, unfolding(table::specs::Examined::is_laid))]
fn is_laid(starts: &[usize], numbers: &[f64], times: &[i64], xs: &[f64], ys: &[f64]) -> bool
    ensures { result ≡ is_laid (lent_of starts.now numbers.now times.now xs.now ys.now) }
{
    xs.len() == times.len()
        && ys.len() == times.len()
        && numbers.len() == 3 * starts.len()
        && is_tiled(starts, times.len())
}

// Whether the table has room for so many obstacles and waypoints, in lists that fit one another.
#[tactic(auto, unfolding(crate::specs::Packing::has_room_for))]
fn has_room_for(starts: &[usize], numbers: &[f64], times: &[i64], xs: &[f64], ys: &[f64]) -> bool
    ensures { result ≡ has_room_for
        (lent_of starts.now numbers.now times.now xs.now ys.now) }
{
    starts.len() <= 32 && times.len() <= 288 && is_laid(starts, numbers, times, xs, ys)
}

// Every waypoint at its place.
#[tactic(auto, using(crate::proofs::Stored::puts), unfolding(crate::specs::Packing::times_put, crate::specs::Packing::places_put))]
fn put_waypoints(
    times: &[i64],
    xs: &[f64],
    ys: &[f64],
    marks: &mut [u64; 417],
    places: &mut [f64; 800],
)
    ensures { PutsWaypoints times.now xs.now ys.now marks.old marks.new
        places.old places.new }
{
    for i in 0..times.len() {
        let w = listed::waypoint_at(times, xs, ys, i);
        filling::put_waypoint(marks, places, i, w);
    }
}

// The ends, the profile and the conflict distance of every obstacle, of `count` waypoints in all.
#[tactic(auto, using(crate::proofs::Stored::puts), unfolding(crate::specs::Packing::ends_put, crate::specs::Packing::profiles_put))]
fn put_obstacles(
    starts: &[usize],
    numbers: &[f64],
    count: usize,
    marks: &mut [u64; 417],
    places: &mut [f64; 800],
)
    ensures { PutsObstacles starts.now numbers.now count marks.old marks.new
        places.old places.new }
{
    for (o, first) in starts.iter().enumerate() {
        let end = listed::start_of(starts, count, o + 1);
        filling::put_ends(marks, o, *first, end);
        let p = listed::profile_at(numbers, o);
        filling::put_profile(places, o, p, listed::limit_at(numbers, o));
    }
}

// Packs lent lists, whatever stood in the table, and says whether there was room; where there was none, it is zero throughout.
#[tactic(auto, unfolding(crate::specs::Packing::packed_marks, crate::specs::Packing::packed_places))]
pub fn pack(
    starts: &[usize],
    numbers: &[f64],
    times: &[i64],
    xs: &[f64],
    ys: &[f64],
    marks: &mut [u64; 417],
    places: &mut [f64; 800],
) -> bool
    ensures { Packs (lent_of starts.now numbers.now times.now xs.now ys.now)
        marks.new places.new result }
{
    *marks = [0; 417];
    *places = [0.0; 800];
    if !has_room_for(starts, numbers, times, xs, ys) {
        return false;
    }
    filling::put_count(marks, starts.len());
    put_obstacles(starts, numbers, times.len(), marks, places);
    put_waypoints(times, xs, ys, marks, places);
    boxes::put_boxes(marks, places);
    true
}
