// The hint that the search begins with (docs/RULES.md, 13.8 and 13.9).
ghost use Rattle.std.specs.Prelude.{◌≡◌, ◌+◌, ◌≤◌, ◌<◌, length, drop};
ghost use Rattle.hint_list.specs.Words.{hints_in};
ghost use Rattle.path_roots.specs.Roots.{goal_contour, lateness, count_below, count_level, first_root};

use courses::norm;
use hint_list::entries;
use path_tests::trip::Trip;
use refusals::Refusal;
use times::time::{Duration, Strayed, TimePoint};

// How late the agent is that reaches the goal, so far away, a span after its start.
#[tactic(auto, unfolding(crate::specs::Roots::lateness))]
fn lateness_of(speed: f64, wait: Duration, reach: f64) -> Result<Duration, Strayed>
    ensures { result ≡ lateness speed wait reach }
{
    if speed > 1e-8 {
        return Duration::from_secs_f64(wait.as_secs_f64() - reach / speed);
    }
    Ok(wait)
}

// The contour of the goal for an arrival time.
#[tactic(auto, unfolding(crate::specs::Roots::goal_contour))]
pub fn goal_contour(trip: Trip, arrival: TimePoint) -> Result<Duration, Refusal>
    ensures { result ≡ goal_contour trip arrival }
{
    let leg = trip.leg;
    let start = leg.start;
    let goal = leg.end;
    let reach = norm::norm(goal.place().minus(start.place()))?;
    let wait = arrival.since(start.time)?;
    Ok(lateness_of(trip.speed, wait, reach)?)
}

// How many hints stand in front of the first whose contour is not below this one.
fn count_below(hints: &[u64; 385], contour: Duration) -> usize
    ensures { result ≡ count_below contour (hints_in hints.now) }
{
    (0..entries::count_of(hints))
        .take_while(|i| entries::hint_at(hints, *i).contour.is_below(contour))
        .count()
}

// How many of the hints from `from` on have a contour that is not above this one, before the first that has.
fn count_level(hints: &[u64; 385], contour: Duration, from: usize) -> usize
    requires { from ≤ length (hints_in hints.now) }
    ensures { result ≡ count_level contour (drop from (hints_in hints.now)) }
{
    (from..entries::count_of(hints))
        .take_while(|i| !contour.is_below(entries::hint_at(hints, *i).contour))
        .count()
}

// The last hint of the first contour that is not below the goal's.
pub fn first_root(hints: &[u64; 385], goal: Duration) -> Option<usize>
    ensures { result ≡ first_root goal (hints_in hints.now) }
{
    let n = entries::count_of(hints);
    let at = count_below(hints, goal);
    if n <= at {
        return None;
    }
    let h = entries::hint_at(hints, at);
    Some(at + count_level(hints, h.contour, at + 1))
}
