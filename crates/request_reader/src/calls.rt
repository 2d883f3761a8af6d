// The plan that a stream asks for: the stream is examined, read into a packed table, and the plan made among its obstacles
// (docs/RULES.md, 14.17 and 5.1).
ghost use Rattle.std.specs.Prelude.{◌≡◌, true};
ghost use Rattle.plan_model.specs.Laid.{PlanHanded};
ghost use Rattle.request_format.specs.Format.{request_at, is_request};
ghost use Rattle.request_reader.specs.Asked.{request_plan, stream_plan};

use crate::{fields, reading};
use lent::words;
use plan_making::calls;
use refusals::Refusal;
use request_format::{bits, format};
use table_packing::boxes;

// The plan for a stream that is a request.
fn plan_request(s: &[u8], paths: &mut [u64], actions: &mut [u64]) -> u64
    requires { is_request s.now ≡ true }
    ensures { PlanHanded (request_plan (request_at s.now)) paths.old paths.new actions.old
        actions.new result }
{
    let mut marks = [0u64; 417];
    let mut places = [0.0; 800];
    let o = bits::number_at(s, 4, 6) as usize;
    reading::put_obstacles(s, o, &mut marks, &mut places);
    boxes::put_boxes(&marks, &mut places);
    calls::plan_table(
        true,
        fields::profile_of(s),
        fields::leg_of(s),
        bits::number_at(s, 10, 16),
        &marks,
        &places,
        paths,
        actions,
    )
}

// Counts and paths in one room, the actions of all paths in the other. A malformed stream is refused 2.
#[tactic(auto, unfolding(crate::specs::Asked::stream_plan, request_format::specs::Format::read_of))]
pub fn plan(s: &[u8], paths: &mut [u64], actions: &mut [u64]) -> u64
    ensures { PlanHanded (stream_plan s.now) paths.old paths.new actions.old
        actions.new result }
{
    if !format::is_request(s) {
        words::refuse(paths, u64::from(Refusal::Shape));
        return words::refuse(actions, u64::from(Refusal::Shape));
    }
    plan_request(s, paths, actions)
}
