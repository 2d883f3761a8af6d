// One path for one arrival time: `compute_safe_arrival_path` of the Rust (docs/RULES.md, 13.5 to 13.26).
ghost use Rattle.table.specs.Table.{obstacles_in};
ghost use Rattle.hint_list.specs.Words.{hints_in};
ghost use Rattle.path_search.specs.Links.{links_in};
ghost use Rattle.path_search.specs.Handed.{chained_of};
ghost use Rattle.one_path.specs.Path.{Refused, along_hints, taken, by_hints, path_for};
ghost use Rattle.one_path.specs.Laid.{PutPath};

use hint_list::entries;
use lent::words;
use path_actions::action::SafeAction;
use path_actions::{action, building};
use path_chains::trying;
use path_roots::roots;
use path_search::trial::Trial;
use path_search::tried;
use path_search::tried::{Ending, Tried};
use path_tests::tests;
use path_tests::trip::Trip;
use refusals::Refusal;
use times::time::{Duration, TimePoint};

// How many actions a path has, with its pops and its hold; or no path, with the pops.
#[derive(Clone, Copy, PartialEq, Eq)]
pub enum Found {
    Path(usize, u64, Duration),
    Missing(u64),
}

// A refusal alone: no word of the room is kept.
fn refuse(out: &mut [u64], why: Refusal) -> Result<Found, Refusal>
    ensures { PutPath (Refused why) out.old out.new 0 result }
{
    words::wipe_from(out, 0);
    Err(why)
}

// The path along a chain.
fn along(
    trip: Trip,
    hints: &[u64; 385],
    chain: &[u64; 65],
    pops: u64,
    out: &mut [u64],
    row: usize,
) -> Result<Found, Refusal>
    ensures { PutPath (along_hints trip (hints_in hints.now) (links_in chain.now) pops) out.old
        out.new row result }
{
    let n = tried::links_of(chain);
    let hold = building::build(trip, hints, chain, out, row)?;
    Ok(Found::Path(2 * n + 1, pops, hold))
}

// The path that a search came to, whose chain stands in a list of its own.
#[tactic(auto, unfolding(crate::specs::Path::taken, path_search::specs::Handed::chained_of))]
fn take(
    trip: Trip,
    hints: &[u64; 385],
    chain: &[u64; 65],
    tried: Tried,
    out: &mut [u64],
    row: usize,
) -> Result<Found, Refusal>
    ensures { PutPath (taken trip (hints_in hints.now) (chained_of tried (links_in chain.now))) out.old
        out.new row result }
{
    match tried.ending {
        Ok(Ending::Found) => along(trip, hints, chain, tried.pops, out, row),
        Ok(Ending::Blocked | Ending::Unreached) => Ok(Found::Missing(tried.pops)),
        Err(why) => refuse(out, why),
    }
}

// The path by way of hints.
fn by_hints(
    trip: Trip,
    arrival: TimePoint,
    hints: &[u64; 385],
    budget: u64,
    marks: &[u64; 417],
    places: &[f64; 800],
    out: &mut [u64],
    row: usize,
) -> Result<Found, Refusal>
    ensures { PutPath
        (by_hints trip (obstacles_in marks.now places.now) (hints_in hints.now) budget arrival)
        out.old out.new row result }
{
    if entries::count_of(hints) == 0 {
        return Ok(Found::Missing(0));
    }
    match roots::goal_contour(trip, arrival) {
        Err(why) => refuse(out, why),
        Ok(goal) => {
            let first = roots::first_root(hints, goal);
            let mut chain = [0u64; 65];
            let tried = trying::find_chain(trip, hints, budget, first, marks, places, &mut chain);
            take(trip, hints, &chain, tried, out, row)
        }
    }
}

// The actions of the path stand from `row` on, as far as there is room. A refusal keeps no word.
#[tactic(auto, unfolding(crate::specs::Path::path_for))]
pub fn compute_safe_arrival_path(
    trip: Trip,
    arrival: TimePoint,
    hints: &[u64; 385],
    budget: u64,
    marks: &[u64; 417],
    places: &[f64; 800],
    out: &mut [u64],
    row: usize,
) -> Result<Found, Refusal>
    ensures { PutPath
        (path_for trip (obstacles_in marks.now places.now) (hints_in hints.now) budget arrival)
        out.old out.new row result }
{
    match tests::can_arrive_safely(trip, arrival, marks, places) {
        Err(why) => refuse(out, why),
        Ok(Trial::Passed) => {
            let leg = trip.leg;
            let goal = leg.end;
            action::put_action(out, row, SafeAction::Move(goal));
            Ok(Found::Path(1, 0, Duration(0)))
        }
        Ok(Trial::Failed) => by_hints(trip, arrival, hints, budget, marks, places, out, row),
    }
}
