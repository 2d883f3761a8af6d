// Whether two legs are in conflict: `have_conflict` of the Rust (docs/RULES.md, 9.1 to 9.6).
ghost use Rattle.std.specs.Prelude.{◌≡◌};
ghost use Rattle.conflicts.specs.Conflict.{is_closing, closing_at, entered_at, proximity_in_boxes, conflict_of};

use motions::quadratic;
use motions::quadratic::Quadratic;
use proximity::detect;
use proximity::detect::Proximity;
use refusals::Refusal;
use shapes::bounding_box::BoundingBox;
use shapes::waypoint::Leg;
use times::time::TimePoint;

// No conflict, or a conflict.
#[derive(Clone, Copy, PartialEq, Eq)]
pub enum Verdict {
    Clear,
    Conflict,
}

// Whether the squared distance falls, t seconds after the range's start.
fn is_closing(q: Quadratic, t: f64) -> bool
    ensures { result ≡ is_closing q t }
{
    (2.0 * q.a) * t + q.b < -1e-6
}

// A conflict at the entry t, if the legs still close in on one another then.
#[tactic(auto, unfolding(crate::specs::Conflict::closing_at))]
fn closing_at(limit: f64, agent: Leg, obstacle: Leg, t: TimePoint) -> Result<Verdict, Refusal>
    ensures { result ≡ closing_at limit agent obstacle t }
{
    let t0 = detect::range_start(agent, obstacle);
    let since = t.since(t0)?;
    let q = quadratic::meeting_from(limit, agent, obstacle, t0)?;
    if is_closing(q, since.as_secs_f64()) {
        return Ok(Verdict::Conflict);
    }
    Ok(Verdict::Clear)
}

// How near the agent's leg and an obstacle's come, each in its box: never where the boxes do not overlap.
#[tactic(auto, unfolding(crate::specs::Conflict::proximity_in_boxes))]
pub fn proximity_in_boxes(
    agent: Leg,
    bounds: BoundingBox,
    obstacle: Leg,
    other: BoundingBox,
    limit: f64,
) -> Result<Proximity, Refusal>
    ensures { result ≡ proximity_in_boxes agent bounds obstacle other limit }
{
    if !bounds.overlaps(other) {
        return Ok(Proximity::Never);
    }
    detect::detect_proximity(limit, agent, obstacle)
}

// What an entry at t says: it counts only strictly inside both legs.
#[tactic(auto, unfolding(crate::specs::Conflict::entered_at))]
pub fn entered_at(limit: f64, agent: Leg, obstacle: Leg, t: TimePoint) -> Result<Verdict, Refusal>
    ensures { result ≡ entered_at limit agent obstacle t }
{
    if !agent.is_inside(t) {
        return Ok(Verdict::Clear);
    }
    if !obstacle.is_inside(t) {
        return Ok(Verdict::Clear);
    }
    closing_at(limit, agent, obstacle, t)
}

// Whether the agent's leg and an obstacle's are in conflict, each with its box.
#[tactic(auto, unfolding(crate::specs::Conflict::conflict_of, crate::specs::Conflict::proximity_in_boxes))]
pub fn have_conflict(
    agent: Leg,
    bounds: BoundingBox,
    obstacle: Leg,
    other: BoundingBox,
    limit: f64,
) -> Result<Verdict, Refusal>
    ensures { result ≡ conflict_of agent bounds obstacle other limit }
{
    match proximity_in_boxes(agent, bounds, obstacle, other, limit)? {
        Proximity::Never => Ok(Verdict::Clear),
        Proximity::Enters(t) | Proximity::Passes(t, _) => entered_at(limit, agent, obstacle, t),
    }
}
