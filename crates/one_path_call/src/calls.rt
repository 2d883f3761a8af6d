// The call for one path alone: it examines its own input, then does the work (docs/RULES.md, 4.13 and 5.1 to 5.7).
ghost use Rattle.std.specs.Prelude.{◌≡◌};
ghost use Rattle.lent.specs.Outcome.{Handed};
ghost use Rattle.table.specs.Lent.{lent_of};
ghost use Rattle.table.specs.Table.{obstacles_in};
ghost use Rattle.hint_list.specs.Words.{hints_in};
ghost use Rattle.one_path_call.specs.Taken.{with_taken_told};
ghost use Rattle.one_path.specs.Path.{path_for};
ghost use Rattle.one_path.specs.Asked.{lone_path, path_outcome, asked_path};

use domain::beside;
use hint_words::taken;
use hints::contour;
use lent::{rows, words};
use number_words::word;
use one_path::arrival_path;
use one_path::arrival_path::Found;
use path_tests::trip::Trip;
use refusals::Refusal;
use shapes::profile::CircularProfile;
use shapes::waypoint::Leg;
use table_checks::examine;
use table_packing::packing;
use times::time::TimePoint;

// One path for a trip, in rows: whether there is one, its pops, its hold and how many actions it has; then they.
fn give_path(
    trip: Trip,
    arrival: TimePoint,
    hints: &[u64; 385],
    budget: u64,
    marks: &[u64; 417],
    places: &[f64; 800],
    out: &mut [u64],
) -> u64
    ensures { Handed
        (path_outcome
        (path_for trip (obstacles_in marks.now places.now) (hints_in hints.now) budget
        arrival))
        out.old out.new result }
{
    let found = arrival_path::compute_safe_arrival_path(
        trip, arrival, hints, budget, marks, places, out, 1,
    );
    match found {
        Err(why) => u64::from(why),
        Ok(Found::Missing(pops)) => {
            rows::put_row(out, 0, 0, pops, 0, 0);
            rows::settle(out, 1)
        }
        Ok(Found::Path(many, pops, hold)) => {
            let held = word::of_signed(hold.0);
            rows::put_row(out, 0, 1, pops, held, many as u64);
            rows::settle(out, 1 + many)
        }
    }
}

// One path among the obstacles of a table; refused 4 where the agent's line is too short.
#[tactic(auto, unfolding(one_path::specs::Asked::path_outcome, one_path::specs::Asked::lone_path))]
fn path_among(
    p: CircularProfile,
    agent: Leg,
    arrival: TimePoint,
    budget: u64,
    hints: &[u64; 385],
    marks: &[u64; 417],
    places: &[f64; 800],
    out: &mut [u64],
) -> u64
    ensures { Handed
        (path_outcome
        (lone_path p agent arrival budget (hints_in hints.now)
        (obstacles_in marks.now places.now)))
        out.old out.new result }
{
    match contour::scale_of(agent) {
        Err(why) => words::refuse(out, u64::from(why)),
        Ok(scale) => {
            let trip = Trip {
                profile: p,
                leg: agent,
                speed: scale.speed,
            };
            give_path(trip, arrival, hints, budget, marks, places, out)
        }
    }
}

// What is found, told by its number, with lent hints that are taken over or refused.
fn with_taken(taken: Result<usize, Refusal>, found: Result<(), u64>) -> Result<(), u64>
    ensures { result ≡ with_taken_told taken found }
{
    match taken {
        Ok(_count) => found,
        Err(why) => beside::with_lent_told(u64::from(why), found),
    }
}

// One path for an arrival time, by way of hints that are lent as words, among the obstacles of a lent table.
pub fn arrival_path(
    p: CircularProfile,
    agent: Leg,
    arrival: TimePoint,
    budget: u64,
    starts: &[usize],
    numbers: &[f64],
    times: &[i64],
    xs: &[f64],
    ys: &[f64],
    hints: &[u64],
    out: &mut [u64],
) -> u64
    ensures { Handed
        (path_outcome
        (asked_path p agent arrival budget hints.now
        (lent_of starts.now numbers.now times.now xs.now
        ys.now)))
        out.old out.new result }
{
    let mut own = [0u64; 385];
    let taken = taken::lent_hints(hints, starts.len(), &mut own);
    let others = beside::is_asked(budget, arrival);
    let mut marks = [0u64; 417];
    let mut places = [0.0; 800];
    let packed = packing::pack(starts, numbers, times, xs, ys, &mut marks, &mut places);
    let found = examine::examine(packed, p, agent, &marks, &places).map_err(u64::from);
    let input = with_taken(taken, beside::with_numbers_told(others, found));
    match input {
        Err(number) => words::refuse(out, number),
        Ok(()) => {
            if agent.is_brief() {
                return words::refuse(out, u64::from(Refusal::NoLine));
            }
            path_among(p, agent, arrival, budget, &own, &marks, &places, out)
        }
    }
}
