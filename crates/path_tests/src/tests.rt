// The tests of the path search: straight to the goal, from a hint to its parent, from the start to a hint
// (docs/RULES.md, 13.5, 13.10 and 13.16).
ghost use Rattle.std.specs.Prelude.{◌≡◌};
ghost use Rattle.table.specs.Table.{obstacles_in};
ghost use Rattle.path_tests.specs.Tests.{to_end, to_goal, waits_at, from_start, stays_till, straight};

use crate::trip::Trip;
use crate::{travel, way};
use path_search::trial::Trial;
use refusals::Refusal;
use shapes::waypoint::Waypoint;
use times::time::TimePoint;

// From the waypoint of a hint to the place of another waypoint, and waiting there until its time.
#[tactic(auto, unfolding(crate::specs::Tests::to_end, table::specs::Table::obstacles_in))]
pub fn to_end(
    trip: Trip,
    hint: Waypoint,
    end: Waypoint,
    marks: &[u64; 417],
    places: &[f64; 800],
) -> Result<Trial, Refusal>
    ensures { result ≡ to_end trip (obstacles_in marks.now places.now) hint end }
{
    let arrival = travel::arrival_at(trip.speed, hint, end.place())?;
    way::both_ways(trip.profile, hint, arrival, end, marks, places)
}

// From the waypoint of a hint to the goal.
#[tactic(auto, unfolding(crate::specs::Tests::to_goal, table::specs::Table::obstacles_in))]
pub fn to_goal(
    trip: Trip,
    hint: Waypoint,
    marks: &[u64; 417],
    places: &[f64; 800],
) -> Result<Trial, Refusal>
    ensures { result ≡ to_goal trip (obstacles_in marks.now places.now) hint }
{
    let leg = trip.leg;
    let goal = leg.end;
    let end = travel::arrival_at(trip.speed, hint, goal.place())?;
    to_end(trip, hint, end, marks, places)
}

// Waiting for a hint's end at its place, where the agent does not come too late for it.
#[tactic(auto, unfolding(crate::specs::Tests::waits_at, table::specs::Table::obstacles_in))]
fn waits_at(
    trip: Trip,
    arrival: Waypoint,
    hint: Waypoint,
    marks: &[u64; 417],
    places: &[f64; 800],
) -> Result<Trial, Refusal>
    ensures { result ≡ waits_at trip (obstacles_in marks.now places.now) arrival hint }
{
    if hint.time.is_before(arrival.time) {
        return Ok(Trial::Failed);
    }
    way::safe_way(trip.profile, arrival, hint, marks, places)
}

// From the start to the waypoint of a hint.
#[tactic(auto, unfolding(crate::specs::Tests::from_start, table::specs::Table::obstacles_in))]
pub fn from_start(
    trip: Trip,
    hint: Waypoint,
    marks: &[u64; 417],
    places: &[f64; 800],
) -> Result<Trial, Refusal>
    ensures { result ≡ from_start trip (obstacles_in marks.now places.now) hint }
{
    let leg = trip.leg;
    let start = leg.start;
    let arrival = travel::arrival_at(trip.speed, start, hint.place())?;
    match way::safe_way(trip.profile, start, arrival, marks, places)? {
        Trial::Passed => waits_at(trip, arrival, hint, marks, places),
        Trial::Failed => Ok(Trial::Failed),
    }
}

// Staying at the goal from an arrival there until the time asked for.
#[tactic(auto, unfolding(crate::specs::Tests::stays_till, table::specs::Table::obstacles_in))]
fn stays_till(
    trip: Trip,
    arrival: Waypoint,
    asked: TimePoint,
    marks: &[u64; 417],
    places: &[f64; 800],
) -> Result<Trial, Refusal>
    ensures { result ≡ stays_till trip (obstacles_in marks.now places.now) arrival asked }
{
    if !arrival.time.is_before(asked) {
        return Ok(Trial::Passed);
    }
    let end = Waypoint {
        time: asked,
        x: arrival.x,
        y: arrival.y,
    };
    way::safe_way(trip.profile, arrival, end, marks, places)
}

// Straight from the start to the goal, and staying there until the time asked for: `can_arrive_safely` of the Rust.
#[tactic(auto, unfolding(crate::specs::Tests::straight, table::specs::Table::obstacles_in))]
pub fn can_arrive_safely(
    trip: Trip,
    asked: TimePoint,
    marks: &[u64; 417],
    places: &[f64; 800],
) -> Result<Trial, Refusal>
    ensures { result ≡ straight trip (obstacles_in marks.now places.now) asked }
{
    let leg = trip.leg;
    let start = leg.start;
    let goal = leg.end;
    let arrival = travel::arrival_at(trip.speed, start, goal.place())?;
    match way::safe_way(trip.profile, start, arrival, marks, places)? {
        Trial::Passed => stays_till(trip, arrival, asked, marks, places),
        Trial::Failed => Ok(Trial::Failed),
    }
}
