// What a path asks the agent to do: `SafeAction` of the Rust (docs/RULES.md, 13.23).
ghost use Rattle.std.specs.Prelude.{◌≡◌};
ghost use Rattle.lent.specs.Rows.{with_row};
ghost use Rattle.path_actions.specs.Action.{action_words};

use lent::rows;
use number_words::word;
use shapes::waypoint::Waypoint;
use times::time::TimePoint;

// Moving to a waypoint, or waiting for an obstacle until an instant.
#[derive(Clone, Copy)]
pub enum SafeAction {
    Move(Waypoint),
    Wait(usize, TimePoint),
}

// Puts the row of an action at its place, where there is room for it.
#[tactic(auto, using(number_words::proofs::ReadBack::read_back), unfolding(crate::specs::Action::action_words))]
pub fn put_action(out: &mut [u64], row: usize, action: SafeAction)
    ensures { out.new ≡ with_row out.old row (action_words action) }
{
    match action {
        SafeAction::Move(w) => {
            let time = word::of_signed(w.time.0);
            let x = word::of_double(w.x);
            let y = word::of_double(w.y);
            rows::put_row(out, row, 1, time, x, y);
        }
        SafeAction::Wait(obstacle, end) => {
            let until = word::of_signed(end.0);
            rows::put_row(out, row, 2, obstacle as u64, until, 0);
        }
    }
}
