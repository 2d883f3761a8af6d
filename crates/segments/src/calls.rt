// The call for a segment: it examines its own input, then does the work (docs/RULES.md, 5.1 to 5.4).
ghost use Rattle.std.specs.Prelude.{◌≡◌};
ghost use Rattle.table.specs.Lent.{lent_of};
ghost use Rattle.segments.specs.Asked.{asked_segment};

use crate::segment;
use conflicts::conflict::Verdict;
use refusals::Refusal;
use shapes::bounding_box::BoundingBox;
use shapes::profile::CircularProfile;
use shapes::waypoint::Leg;
use table_checks::examine;
use table_packing::packing;

// Whether the agent's leg, in the box of its own footprint, is safe among the obstacles of a lent table.
#[tactic(auto, using(table_packing::proofs::Packed::packed_table), unfolding(crate::specs::Asked::asked_segment))]
pub fn segment(
    p: CircularProfile,
    agent: Leg,
    starts: &[usize],
    numbers: &[f64],
    times: &[i64],
    xs: &[f64],
    ys: &[f64],
) -> Result<Verdict, Refusal>
    ensures { result ≡ asked_segment p agent
        (lent_of starts.now numbers.now times.now xs.now ys.now) }
{
    let mut marks = [0u64; 417];
    let mut places = [0.0; 800];
    let packed = packing::pack(starts, numbers, times, xs, ys, &mut marks, &mut places);
    examine::examine(packed, p, agent, &marks, &places)?;
    let bounds = BoundingBox::for_line(p.footprint, agent);
    segment::is_safe_segment(agent, bounds, &marks, &places)
}
