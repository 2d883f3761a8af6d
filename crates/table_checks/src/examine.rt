// What is wrong with a table: it breaks a count or the order of times (2), or one of its numbers is outside the table of the domain
// (1) (docs/RULES.md, 3.1 to 3.6 and 5.1).
ghost use Rattle.std.specs.Prelude.{◌≡◌, ◌&&◌, List, Float, ◌-◌};
ghost use Rattle.lent.specs.Listed.{listed_to, every};
ghost use Rattle.domain.specs.Domain.{is_waypoint, is_profile, is_limit};
ghost use Rattle.table.specs.Examined.{is_trajectory, is_few, are_trajectories, is_shaped, are_allowed, table_examined};
ghost use Rattle.table.specs.Table.{profile_in, limit_in, waypoint_in, obstacles_in};

use domain::limits;
use refusals::Refusal;
use shapes::profile::CircularProfile;
use shapes::waypoint::Leg;
use table::reading;

// How many legs the waypoints from `from` up to `to` make.
fn legs_between(from: usize, to: usize) -> usize
    ensures { result ≡ (to - from) - 1 }
{
    to.saturating_sub(from).saturating_sub(1)
}

// Whether there are at most 256 legs, whatever their places; there is no room for more than 32 obstacles.
#[tactic(auto, unfolding(table::specs::Table::obstacles_in))]
fn is_few(marks: &[u64; 417]) -> bool
    ensures { (places : List Float) → result ≡ is_few (obstacles_in marks.now places) }
{
    let mut legs = 0;
    for o in 0..reading::count_of(marks) {
        legs += legs_between(reading::first_of(marks, o), reading::end_of(marks, o));
    }
    legs <= 256
}

// Whether the waypoints from `from` up to `to` are a trajectory: no single one, and their times rise.
fn is_trajectory(marks: &[u64; 417], places: &[f64; 800], from: usize, to: usize) -> bool
    ensures { result ≡ is_trajectory (listed_to (waypoint_in marks.now places.now) to from) }
{
    (from..to).len() != 1
        && (from..to.saturating_sub(1)).all(|i| reading::leg_at(marks, places, i).is_rising())
}

// Whether every obstacle's waypoints are one.
fn are_trajectories(marks: &[u64; 417], places: &[f64; 800]) -> bool
    ensures { result ≡ are_trajectories (obstacles_in marks.now places.now) }
{
    (0..reading::count_of(marks)).all(|o| {
        let from = reading::first_of(marks, o);
        let to = reading::end_of(marks, o);
        is_trajectory(marks, places, from, to)
    })
}

// Whether the counts and the order of times are those of the table.
#[tactic(auto, unfolding(table::specs::Examined::is_shaped))]
pub fn is_shaped(marks: &[u64; 417], places: &[f64; 800]) -> bool
    ensures { result ≡ is_shaped (obstacles_in marks.now places.now) }
{
    is_few(marks) && are_trajectories(marks, places)
}

// Whether every waypoint from `from` up to `to` is in the table.
fn are_waypoints(marks: &[u64; 417], places: &[f64; 800], from: usize, to: usize) -> bool
    ensures { result ≡ every is_waypoint (listed_to (waypoint_in marks.now places.now) to from) }
{
    (from..to).all(|i| limits::is_waypoint(reading::waypoint_at(marks, places, i)))
}

// Whether the three numbers of obstacle o are.
fn are_numbers(places: &[f64; 800], o: usize) -> bool
    ensures { result ≡ (is_profile (profile_in places.now o) && is_limit (limit_in places.now o)) }
{
    limits::is_profile(reading::profile_at(places, o))
        && limits::is_limit(reading::limit_at(places, o))
}

// Whether all numbers of the table are.
pub fn are_allowed(marks: &[u64; 417], places: &[f64; 800]) -> bool
    ensures { result ≡ are_allowed (obstacles_in marks.now places.now) }
{
    (0..reading::count_of(marks)).all(|o| {
        let from = reading::first_of(marks, o);
        let to = reading::end_of(marks, o);
        are_numbers(places, o) && are_waypoints(marks, places, from, to)
    })
}

// What is wrong with the agent's profile and leg and a table, whose lists were packed or did not fit.
#[tactic(auto, unfolding(table::specs::Examined::table_examined))]
pub fn examine(
    packed: bool,
    p: CircularProfile,
    leg: Leg,
    marks: &[u64; 417],
    places: &[f64; 800],
) -> Result<(), Refusal>
    ensures { result ≡ table_examined packed p leg (obstacles_in marks.now places.now) }
{
    if !packed {
        return Err(Refusal::Shape);
    }
    if !is_shaped(marks, places) {
        return Err(Refusal::Shape);
    }
    if !limits::is_profile(p) {
        return Err(Refusal::Number);
    }
    if !limits::is_leg(leg) {
        return Err(Refusal::Number);
    }
    if !are_allowed(marks, places) {
        return Err(Refusal::Number);
    }
    if leg.is_backward() {
        return Err(Refusal::Backward);
    }
    Ok(())
}
