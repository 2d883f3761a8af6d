// The quadratic that says how near two legs are: a t^2 + b t + c, t seconds after an instant (docs/RULES.md, 8.10 and 8.11).
ghost use Rattle.std.specs.Prelude.{◌≡◌};
ghost use Rattle.motions.specs.Quadratic.{quadratic_of, meeting_from};

use crate::motion;
use crate::motion::State;
use refusals::Refusal;
use shapes::waypoint::Leg;
use times::time::TimePoint;

// The squared distance less the limit, by its coefficients.
#[derive(Clone, Copy)]
pub struct Quadratic {
    pub a: f64,
    pub b: f64,
    pub c: f64,
}

// The quadratic of the agent's state p and the obstacle's state q.
fn quadratic_of(limit: f64, p: State, q: State) -> Quadratic
    ensures { result ≡ quadratic_of limit p q }
{
    let px = q.place.x - p.place.x;
    let py = q.place.y - p.place.y;
    let vx = q.velocity.x - p.velocity.x;
    let vy = q.velocity.y - p.velocity.y;
    Quadratic {
        a: vx * vx + vy * vy,
        b: 2.0 * (vx * px + vy * py),
        c: (px * px + py * py) - limit,
    }
}

// The quadratic of the agent's leg and an obstacle's, from t0 on. A leg that has no place then is where the Rust panics.
#[tactic(auto, unfolding(crate::specs::Quadratic::meeting_from))]
pub fn meeting_from(
    limit: f64,
    agent: Leg,
    obstacle: Leg,
    t0: TimePoint,
) -> Result<Quadratic, Refusal>
    ensures { result ≡ meeting_from limit agent obstacle t0 }
{
    let p = motion::motion_at(agent, t0)?.ok_or(Refusal::Apart)?;
    let q = motion::motion_at(obstacle, t0)?.ok_or(Refusal::Apart)?;
    Ok(quadratic_of(limit, p, q))
}
