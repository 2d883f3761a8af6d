// The text of an answer in two rooms of rows of four words: counts and paths in one, the actions of all paths in the other
// (docs/RULES.md, 15.6).
ghost use Rattle.std.specs.Prelude.{◌≡◌, ◌+◌, ◌*◌, ◌≤◌, ◌<◌, ◌/◌, min, length, get_or};
ghost use Rattle.lent.specs.Listed.{listed_to};
ghost use Rattle.lent.specs.Outcome.{Gives};
ghost use Rattle.texts.specs.Room.{PutText, Tells};
ghost use Rattle.reply_text.specs.Answer.{row_at, rows_of, action_line, action_lines, path_lines, plan_lines};

use reply_lines::line;
use texts::room;
use texts::room::Told;

// A word of a room; what the room does not reach is zero.
fn word_at(room: &[u64], i: usize) -> u64
    ensures { result ≡ get_or room.now i 0 }
{
    room.get(i).copied().unwrap_or(0)
}

// Where n rows from row `from` on end, as far as the room has rows.
fn rows_end(room: &[u64], from: usize, n: u64) -> usize
    ensures { result ≡ min (from + n) (length room.now / 4) }
{
    from.saturating_add(n as usize).min(room.len() / 4)
}

// What the row of a move begins with.
const MOVE: u64 = 1;

// Puts the line of the action in row i.
#[tactic(auto, unfolding(crate::specs::Answer::row_at, crate::specs::Answer::action_line))]
fn put_action(out: &mut [u8], at: usize, actions: &[u64], i: usize) -> usize
    requires { i < length actions.now / 4 }
    ensures { PutText (action_line (row_at actions.now i)) out.old at out.new result }
{
    if actions[4 * i] == MOVE {
        return line::put_move(
            out,
            at,
            actions[4 * i + 1],
            actions[4 * i + 2],
            actions[4 * i + 3],
        );
    }
    line::put_wait(out, at, actions[4 * i + 1], actions[4 * i + 2])
}

// Puts the lines of the actions in the rows from `from` up to `to`.
fn put_actions(out: &mut [u8], at: usize, actions: &[u64], from: usize, to: usize) -> usize
    requires { (to ≤ length actions.now / 4) × (at ≤ length out.old + 1) }
    ensures { PutText (action_lines (listed_to (row_at actions.now) to from)) out.old at out.new result }
{
    let mut next = at;
    for i in from..to {
        next = put_action(out, next, actions, i);
    }
    next
}

// Puts the lines of the paths in the rows from 1 up to `end`, each with those of its actions.
#[tactic(auto, using(texts::proofs::Putting::put_within))]
fn put_paths(out: &mut [u8], at: usize, paths: &[u64], end: usize, actions: &[u64]) -> usize
    requires { (end ≤ length paths.now / 4) × (at ≤ length out.old + 1) }
    ensures { PutText (path_lines (listed_to (row_at paths.now) end 1) (rows_of actions.now)) out.old at
        out.new result }
{
    let mut next = at;
    let mut from = 0;
    for i in 1..end {
        next = line::put_path(out, next, paths[4 * i], paths[4 * i + 1], paths[4 * i + 2]);
        let to = rows_end(actions, from, paths[4 * i + 3]);
        next = put_actions(out, next, actions, from, to);
        from = to;
    }
    next
}

// Puts the lines of a plan.
#[tactic(auto, using(texts::proofs::Putting::put_within))]
fn put_plan(out: &mut [u8], paths: &[u64], actions: &[u64]) -> usize
    ensures { PutText (plan_lines paths.now actions.now) out.old 0 out.new result }
{
    let many = word_at(paths, 3);
    let next = line::put_ok(
        out,
        word_at(paths, 0),
        word_at(paths, 1),
        word_at(paths, 2),
        many,
    );
    let end = rows_end(paths, 1, many);
    put_paths(out, next, paths, end, actions)
}

// The text of a plan's rows. Each line takes at most 87 bytes.
#[tactic(auto, using(crate::proofs::Sizes::plan_short))]
pub fn put_answer(paths: &[u64], actions: &[u64], out: &mut [u8]) -> Told
    ensures tells { Tells (Gives (plan_lines paths.now actions.now)) out.old out.new result }
    ensures actions_len_bound { length (plan_lines paths.now actions.now) ≤ 87 *
        (1 + length paths.now / 4 + length actions.now / 4) }
{
    let end = put_plan(out, paths, actions);
    room::settle(out, end)
}
