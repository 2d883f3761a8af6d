// The call for hints alone: it examines its own input, then does the work (docs/RULES.md, 4.13 and 5.1 to 5.7).
ghost use Rattle.table.specs.Lent.{lent_of};
ghost use Rattle.hint_ranking.specs.Hints.{Ranks};
ghost use Rattle.hints.specs.Asked.{asked_hints};

use crate::path_hints;
use refusals::Refusal;
use shapes::bounding_box::BoundingBox;
use shapes::profile::CircularProfile;
use shapes::waypoint::Leg;
use table_checks::examine;
use table_packing::packing;

// The ranked hints for the agent's leg in a lent list, in the box of its own footprint, among the obstacles of a lent table.
#[tactic(auto, using(crate::proofs::Packed::packed), unfolding(crate::specs::Asked::asked_hints))]
pub fn wait_hints(
    p: CircularProfile,
    agent: Leg,
    starts: &[usize],
    numbers: &[f64],
    times: &[i64],
    xs: &[f64],
    ys: &[f64],
    hints: &mut [u64; 385],
) -> Result<usize, Refusal>
    ensures { Ranks
        (asked_hints p agent
        (lent_of starts.now numbers.now times.now xs.now ys.now))
        hints.new result }
{
    let mut marks = [0u64; 417];
    let mut places = [0.0; 800];
    let packed = packing::pack(starts, numbers, times, xs, ys, &mut marks, &mut places);
    if let Err(why) = examine::examine(packed, p, agent, &marks, &places) {
        return path_hints::refuse(hints, why);
    }
    if agent.is_brief() {
        return path_hints::refuse(hints, Refusal::NoLine);
    }
    let bounds = BoundingBox::for_line(p.footprint, agent);
    path_hints::compute_safe_linear_path_wait_hints(p, agent, bounds, &marks, &places, hints)
}
