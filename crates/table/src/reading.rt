// How the packed table is read. `marks`: how many obstacles there are; four words for each from word 1 on, of which the first two
// are where its waypoints begin and end and two are spare; the time of each waypoint from word 129 on. `places`: seven numbers for
// each obstacle, which are footprint, follow buffer, conflict distance squared, left, bottom, right and top; x and y of each
// waypoint from number 224 on. There is room for 32 obstacles and 288 waypoints; what lies past the room reads as the last in it.
ghost use Rattle.std.specs.Prelude.{◌≡◌, min};
ghost use Rattle.table.specs.Table.{obstacle_count, first_in, end_in, profile_in, limit_in, box_in, waypoint_in, leg_in};

use number_words::word;
use shapes::bounding_box::BoundingBox;
use shapes::profile::CircularProfile;
use shapes::waypoint::{Leg, Waypoint};
use times::time::TimePoint;

// How many obstacles there are.
#[tactic(auto, unfolding(crate::specs::Table::obstacle_count))]
pub fn count_of(marks: &[u64; 417]) -> usize
    ensures { result ≡ obstacle_count marks.now }
{
    let n = marks[0];
    if 32 < n {
        return 32;
    }
    n as usize
}

// The row of obstacle o, the last one for any past it.
fn row_of(o: usize) -> usize
    ensures { result ≡ min 31 o }
{
    if 31 < o {
        return 31;
    }
    o
}

// The place of waypoint i, the last one for any past it.
fn place_of(i: usize) -> usize
    ensures { result ≡ min 287 i }
{
    if 287 < i {
        return 287;
    }
    i
}

// An index up to which waypoints may stand.
fn in_room(n: u64) -> usize
    ensures { result ≡ min 288 n }
{
    if 288 < n {
        return 288;
    }
    n as usize
}

// Where the waypoints of obstacle o begin.
#[tactic(auto, unfolding(crate::specs::Table::first_in))]
pub fn first_of(marks: &[u64; 417], o: usize) -> usize
    ensures { result ≡ first_in marks.now o }
{
    in_room(marks[4 * row_of(o) + 1])
}

// Where they end: behind its last.
#[tactic(auto, unfolding(crate::specs::Table::end_in))]
pub fn end_of(marks: &[u64; 417], o: usize) -> usize
    ensures { result ≡ end_in marks.now o }
{
    in_room(marks[4 * row_of(o) + 2])
}

// The footprint and the follow buffer of obstacle o.
#[tactic(auto, unfolding(crate::specs::Table::profile_in))]
pub fn profile_at(places: &[f64; 800], o: usize) -> CircularProfile
    ensures { result ≡ profile_in places.now o }
{
    let row = row_of(o);
    CircularProfile {
        footprint: places[7 * row],
        follow: places[7 * row + 1],
    }
}

// Its conflict distance squared.
#[tactic(auto, unfolding(crate::specs::Table::limit_in))]
pub fn limit_at(places: &[f64; 800], o: usize) -> f64
    ensures { result ≡ limit_in places.now o }
{
    places[7 * row_of(o) + 2]
}

// Its box.
#[tactic(auto, unfolding(crate::specs::Table::box_in))]
pub fn box_at(places: &[f64; 800], o: usize) -> BoundingBox
    ensures { result ≡ box_in places.now o }
{
    let row = row_of(o);
    BoundingBox {
        left: places[7 * row + 3],
        bottom: places[7 * row + 4],
        right: places[7 * row + 5],
        top: places[7 * row + 6],
    }
}

// Waypoint i of the table.
#[tactic(auto, unfolding(crate::specs::Table::waypoint_in))]
pub fn waypoint_at(marks: &[u64; 417], places: &[f64; 800], i: usize) -> Waypoint
    ensures { result ≡ waypoint_in marks.now places.now i }
{
    let at = place_of(i);
    Waypoint {
        time: TimePoint(word::signed_of(marks[at + 129])),
        x: places[2 * at + 224],
        y: places[2 * at + 225],
    }
}

// The leg from waypoint i to the next.
pub fn leg_at(marks: &[u64; 417], places: &[f64; 800], i: usize) -> Leg
    ensures { result ≡ leg_in marks.now places.now i }
{
    let at = place_of(i);
    Leg {
        start: waypoint_at(marks, places, at),
        end: waypoint_at(marks, places, at + 1),
    }
}
