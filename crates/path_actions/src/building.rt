// A path from the chain of its hints (docs/RULES.md, 13.23 to 13.26).
ghost use Rattle.std.specs.Prelude.{◌≡◌, ◌≤◌, ◌/◌, min, length, pos};
ghost use Rattle.hint_list.specs.Words.{hints_in};
ghost use Rattle.path_search.specs.Links.{links_in};
ghost use Rattle.path_actions.specs.Built.{Refused, hold_after, stopped, ended, built, hints_at};
ghost use Rattle.path_actions.specs.Laid.{PutActions};

use crate::action;
use crate::action::SafeAction;
use hint_list::entries;
use hint_list::hint::WaitHint;
use lent::words;
use path_search::tried;
use path_tests::travel;
use path_tests::trip::Trip;
use refusals::Refusal;
use shapes::waypoint::Waypoint;
use times::time::{Duration, Strayed, TimePoint};

// A hold with the wait from an arrival until an instant.
#[tactic(auto, unfolding(crate::specs::Built::hold_after))]
fn hold_after(hold: Duration, arrival: TimePoint, until: TimePoint) -> Result<Duration, Strayed>
    ensures { result ≡ hold_after hold arrival until }
{
    hold.plus(until.since(arrival)?)
}

// A refusal alone: no word of the room is kept.
fn refuse(out: &mut [u64], why: Refusal) -> Result<Duration, Refusal>
    ensures { PutActions (Refused why) out.old out.new 0 result }
{
    words::wipe_from(out, 0);
    Err(why)
}

// Moving from a waypoint to a hint's place and waiting there: two rows, and the hold with this wait.
#[tactic(auto, using(crate::proofs::Left::put_wiped), unfolding(crate::specs::Built::stopped))]
fn put_stop(
    trip: Trip,
    from: Waypoint,
    hint: WaitHint,
    hold: Duration,
    out: &mut [u64],
    row: usize,
) -> Result<Duration, Refusal>
    requires { row ≤ 4_611_686_018_427_387_904 }
    ensures { PutActions (stopped trip from hint hold) out.old out.new row result }
{
    let place = hint.place;
    let until = hint.until;
    match travel::arrival_at(trip.speed, from, place) {
        Err(why) => refuse(out, why),
        Ok(w) => {
            let Ok(sum) = hold_after(hold, w.time, until) else {
                return refuse(out, Refusal::Strayed);
            };
            action::put_action(out, row, SafeAction::Move(w));
            action::put_action(out, row + 1, SafeAction::Wait(hint.obstacle, until));
            Ok(sum)
        }
    }
}

// Moving from the last waypoint to the goal: one row.
#[tactic(auto, using(crate::proofs::Left::put_wiped), unfolding(crate::specs::Built::ended))]
fn put_end(
    trip: Trip,
    from: Waypoint,
    hold: Duration,
    out: &mut [u64],
    row: usize,
) -> Result<Duration, Refusal>
    ensures { PutActions (ended trip from hold) out.old out.new row result }
{
    let leg = trip.leg;
    let goal = leg.end;
    match travel::arrival_at(trip.speed, from, goal.place()) {
        Err(why) => refuse(out, why),
        Ok(w) => {
            action::put_action(out, row, SafeAction::Move(w));
            Ok(hold)
        }
    }
}

// A row past the room puts nothing, as one at its end does.
fn place(out: &[u64], row: usize) -> usize
    ensures { result ≡ min row (length out.now / 4) }
{
    row.min(out.len() / 4)
}

// The actions of a whole path from `row` on: two for each hint of the chain, and the last move. A refusal keeps no word.
pub fn build(
    trip: Trip,
    hints: &[u64; 385],
    chain: &[u64; 65],
    out: &mut [u64],
    row: usize,
) -> Result<Duration, Refusal>
    ensures { PutActions
        (built trip trip.leg.start (record { 0 = pos 0 })
        (hints_at (hints_in hints.now) (links_in chain.now)))
        out.old out.new row result }
{
    let leg = trip.leg;
    let n = tried::links_of(chain);
    let mut from = leg.start;
    let mut hold = Duration(0);
    let mut at = place(out, row);
    for k in 0..n {
        let ranked = entries::hint_at(hints, tried::link_at(chain, k));
        let hint = ranked.hint;
        hold = put_stop(trip, from, hint, hold, out, at)?;
        from = travel::waypoint_of(hint);
        at += 2;
    }
    put_end(trip, from, hold, out, at)
}
