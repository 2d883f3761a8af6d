// The two rooms of a plan: rows of paths in one, rows of actions in the other (docs/RULES.md, 13.30).
ghost use Rattle.std.specs.Prelude.{◌≡◌, ◌∷◌, []};
ghost use Rattle.number_words.specs.Word.{word_of};
ghost use Rattle.lent.specs.Rows.{with_row};
ghost use Rattle.plan_model.specs.Plan.{short_plan};
ghost use Rattle.plan_model.specs.Laid.{RefusedBoth, SettledBoth, PlanHanded};

use lent::{rows, words};
use number_words::word;
use path_actions::action;
use path_actions::action::SafeAction;
use refusals::Refusal;
use shapes::waypoint::Leg;
use times::time::{Duration, TimePoint};

// How many paths and how many actions there are.
#[derive(Clone, Copy, PartialEq, Eq)]
pub struct Paths {
    pub paths: usize,
    pub actions: usize,
}

// Puts the row of a path with so many actions at its place.
#[tactic(auto, unfolding(lent::specs::Rows::with_row))]
pub fn put_path(
    out: &mut [u64],
    row: usize,
    arrival: TimePoint,
    pops: u64,
    hold: Duration,
    actions: usize,
)
    ensures { out.new ≡ with_row out.old row (word_of arrival.0 ∷ (pops ∷ (word_of hold.0 ∷ (actions ∷ [])))) }
{
    let time = word::of_signed(arrival.0);
    let held = word::of_signed(hold.0);
    rows::put_row(out, row, time, pops, held, actions as u64);
}

// Keeps nothing of either room, and hands back a refusal's number.
#[tactic(auto, unfolding(lent::specs::Outcome::number_of, lent::specs::Outcome::room_of))]
pub fn refuse(paths: &mut [u64], actions: &mut [u64], number: u64) -> u64
    ensures { RefusedBoth number paths.old paths.new actions.old actions.new result }
{
    words::refuse(paths, number);
    words::refuse(actions, number)
}

// Hands over so many rows of each room, with zero behind them: 12 where either room is too small.
pub fn settle(paths: &mut [u64], heads: usize, actions: &mut [u64], many: usize) -> u64
    ensures { SettledBoth heads many paths.old paths.new actions.old actions.new result }
{
    if !rows::has_room(paths, heads) {
        return refuse(paths, actions, u64::from(Refusal::NoRoom));
    }
    if !rows::has_room(actions, many) {
        return refuse(paths, actions, u64::from(Refusal::NoRoom));
    }
    words::wipe_from(paths, 4 * heads);
    words::wipe_from(actions, 4 * many);
    0
}

// A plan of less than 10 ns.
pub fn move_at_once(agent: Leg, paths: &mut [u64], actions: &mut [u64]) -> u64
    ensures { PlanHanded (short_plan agent) paths.old paths.new actions.old actions.new result }
{
    let goal = agent.end;
    rows::put_row(paths, 0, 0, 0, 0, 1);
    put_path(paths, 1, goal.time, 0, Duration(0), 1);
    action::put_action(actions, 0, SafeAction::Move(goal));
    settle(paths, 2, actions, 1)
}
