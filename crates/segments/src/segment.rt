// Whether a segment is safe: `is_safe_segment` of the Rust (docs/RULES.md, 9.7 to 9.11).
ghost use Rattle.std.specs.Prelude.{◌≡◌};
ghost use Rattle.conflicts.specs.Conflict.{judged};
ghost use Rattle.table.specs.Table.{obstacles_in};
ghost use Rattle.segments.specs.Segment.{is_during, leg_verdict, segment_of};

use conflicts::conflict;
use conflicts::conflict::Verdict;
use proximity::detect::Proximity;
use refusals::Refusal;
use shapes::bounding_box::BoundingBox;
use shapes::waypoint::Leg;
use table::{reading, walked};

// Whether a leg is among those of the agent's times: it ends at or after the agent's start and starts at or before its end.
#[tactic(auto, unfolding(crate::specs::Segment::is_during))]
fn is_during(agent: Leg, leg: Leg) -> bool
    ensures { result ≡ is_during agent leg }
{
    !leg.end.time.is_before(agent.start.time) && !agent.end.time.is_before(leg.start.time)
}

// How near a leg of an obstacle with this footprint and limit comes: never where it is not among those of the agent's times.
#[tactic(auto, unfolding(crate::specs::Segment::leg_verdict), using(crate::proofs::Walk::in_boxes))]
fn leg_proximity(
    agent: Leg,
    bounds: BoundingBox,
    footprint: f64,
    limit: f64,
    leg: Leg,
) -> Result<Proximity, Refusal>
    ensures { judged limit agent leg result ≡ leg_verdict agent bounds footprint limit leg }
{
    if !is_during(agent, leg) {
        return Ok(Proximity::Never);
    }
    let around = BoundingBox::for_line(footprint, leg);
    conflict::proximity_in_boxes(agent, bounds, leg, around, limit)
}

// Whether no leg of any obstacle, taken in order, is in conflict with the agent's. The first that is ends the whole walk.
#[tactic(auto, using(crate::proofs::Walk::walk), unfolding(crate::specs::Segment::segment_of, table::specs::Table::obstacles_in))]
pub fn is_safe_segment(
    agent: Leg,
    bounds: BoundingBox,
    marks: &[u64; 417],
    places: &[f64; 800],
) -> Result<Verdict, Refusal>
    ensures { result ≡ segment_of agent bounds (obstacles_in marks.now places.now) }
{
    let mut found = Verdict::Clear;
    'walk: for o in 0..reading::count_of(marks) {
        let profile = reading::profile_at(places, o);
        let limit = reading::limit_at(places, o);
        for i in reading::first_of(marks, o)..walked::walked_to(bounds, marks, places, o) {
            let leg = reading::leg_at(marks, places, i);
            let near = leg_proximity(agent, bounds, profile.footprint, limit, leg)?;
            let Some(t) = near.entry() else {
                continue;
            };
            if let Verdict::Conflict = conflict::entered_at(limit, agent, leg, t)? {
                found = Verdict::Conflict;
                break 'walk;
            }
        }
    }
    Ok(found)
}
