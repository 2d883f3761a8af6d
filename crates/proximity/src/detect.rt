// When two legs come within a distance and when they leave it: `detect_proximity` of the Rust (docs/RULES.md, section 8).
ghost use Rattle.std.specs.Prelude.{◌≡◌, Ok};
ghost use Rattle.proximity.specs.Range.{range_start, range_end, is_near, near_at, short_range};
ghost use Rattle.proximity.specs.Proximity.{entry_of, without_motion, passage, by_roots, long_range, proximity_of};

use floats::comparison;
use motions::quadratic::Quadratic;
use motions::{motion, quadratic};
use refusals::Refusal;
use root::nearest;
use shapes::vector::Vector;
use shapes::waypoint::Leg;
use times::time::TimePoint;

// Never near, near from an instant on, or near from one to another.
#[derive(Clone, Copy, PartialEq, Eq)]
pub enum Proximity {
    Never,
    Enters(TimePoint),
    Passes(TimePoint, TimePoint),
}

impl Proximity {
    // The entry, if there is one.
    pub fn entry(self) -> Option<TimePoint>
        ensures { result ≡ entry_of (Ok self) }
    {
        match self {
            Proximity::Never => None,
            Proximity::Enters(t) | Proximity::Passes(t, _) => Some(t),
        }
    }
}

// The meeting range begins at the later start.
pub fn range_start(agent: Leg, obstacle: Leg) -> TimePoint
    ensures { result ≡ range_start agent obstacle }
{
    agent.start.time.max(obstacle.start.time)
}

// It ends at the earlier end.
pub fn range_end(agent: Leg, obstacle: Leg) -> TimePoint
    ensures { result ≡ range_end agent obstacle }
{
    agent.end.time.min(obstacle.end.time)
}

// Whether two places are within the limit.
fn is_near(limit: f64, p: Vector, q: Vector) -> bool
    ensures { result ≡ is_near limit p q }
{
    let x = p.x - q.x;
    let y = p.y - q.y;
    x * x + y * y <= limit
}

// The entry at t, where both legs have a place then and are near.
#[tactic(auto, unfolding(crate::specs::Range::near_at))]
fn near_at(limit: f64, agent: Leg, obstacle: Leg, t: TimePoint) -> Result<Proximity, Refusal>
    ensures { result ≡ near_at limit agent obstacle t }
{
    let first = motion::motion_at(agent, t)?;
    let second = motion::motion_at(obstacle, t)?;
    match (first, second) {
        (Some(p), Some(q)) if is_near(limit, p.place, q.place) => Ok(Proximity::Enters(t)),
        _ => Ok(Proximity::Never),
    }
}

// A range too short for a quadratic: each end is tested in turn.
#[tactic(auto, unfolding(crate::specs::Range::short_range))]
fn short_range(
    limit: f64,
    agent: Leg,
    obstacle: Leg,
    t0: TimePoint,
    t1: TimePoint,
) -> Result<Proximity, Refusal>
    ensures { result ≡ short_range limit agent obstacle t0 t1 }
{
    match near_at(limit, agent, obstacle, t0)? {
        Proximity::Never => near_at(limit, agent, obstacle, t1),
        near => Ok(near),
    }
}

// Legs that hardly move against one another: near from the range's start on, or never.
fn without_motion(t0: TimePoint, q: Quadratic) -> Result<Proximity, Refusal>
    ensures { result ≡ without_motion t0 q }
{
    if comparison::size(q.b) < 1e-4 {
        if q.c <= 0.0 {
            return Ok(Proximity::Enters(t0));
        }
        return Ok(Proximity::Never);
    }
    Err(Refusal::Creep)
}

// The entry and the exit that the two roots give, in a range of w seconds from t0 on.
#[tactic(auto, unfolding(crate::specs::Proximity::passage))]
fn passage(t0: TimePoint, w: f64, lower: f64, upper: f64) -> Result<Proximity, Refusal>
    ensures { result ≡ passage t0 w lower upper }
{
    if upper < 0.0 {
        return Ok(Proximity::Never);
    }
    if w < lower {
        return Ok(Proximity::Never);
    }
    let enter = t0.plus_secs_f64(comparison::larger(0.0, lower))?;
    if upper <= w {
        return Ok(Proximity::Passes(enter, t0.plus_secs_f64(upper)?));
    }
    Ok(Proximity::Enters(enter))
}

// Legs that move against one another: the roots of the quadratic say when.
fn by_roots(t0: TimePoint, t1: TimePoint, q: Quadratic) -> Result<Proximity, Refusal>
    ensures { result ≡ by_roots t0 t1 q }
{
    let radicand = q.b * q.b - (4.0 * q.a) * q.c;
    if radicand < 0.0 {
        return Ok(Proximity::Never);
    }
    let s = nearest::square_root(radicand)?;
    let w = t1.since(t0)?;
    let lower = (-q.b - s) / (2.0 * q.a);
    let upper = (-q.b + s) / (2.0 * q.a);
    passage(t0, w.as_secs_f64(), lower, upper)
}

// A range of 100,000 ns and more, or one that ends so long before it begins.
#[tactic(auto, unfolding(crate::specs::Proximity::long_range))]
fn long_range(
    limit: f64,
    agent: Leg,
    obstacle: Leg,
    t0: TimePoint,
    t1: TimePoint,
) -> Result<Proximity, Refusal>
    ensures { result ≡ long_range limit agent obstacle t0 t1 }
{
    let q = quadratic::meeting_from(limit, agent, obstacle, t0)?;
    if q.a < 1e-8 {
        return without_motion(t0, q);
    }
    by_roots(t0, t1, q)
}

// When the agent's leg and an obstacle's come within the limit, and when they leave it. Any legs will do, backward ones too.
#[tactic(auto, unfolding(crate::specs::Proximity::proximity_of))]
pub fn detect_proximity(limit: f64, agent: Leg, obstacle: Leg) -> Result<Proximity, Refusal>
    ensures { result ≡ proximity_of limit agent obstacle }
{
    let t0 = range_start(agent, obstacle);
    let t1 = range_end(agent, obstacle);
    let gap = t0.since(t1)?;
    if comparison::size(gap.as_secs_f64()) < 1e-4 {
        return short_range(limit, agent, obstacle, t0, t1);
    }
    long_range(limit, agent, obstacle, t0, t1)
}
