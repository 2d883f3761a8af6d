// Where a leg is at an instant and how fast it goes, as `Motion` of the Rust (docs/RULES.md, 8.1 to 8.3).
ghost use Rattle.std.specs.Prelude.{◌≡◌};
ghost use Rattle.motions.specs.Motion.{velocity_over, place_after, motion_at};

use shapes::vector::Vector;
use shapes::waypoint::Leg;
use times::time::{Strayed, TimePoint};

// A place and a velocity.
#[derive(Clone, Copy)]
pub struct State {
    pub place: Vector,
    pub velocity: Vector,
}

// The velocity of a leg that lasts so many seconds.
fn velocity_over(leg: Leg, seconds: f64) -> Vector
    ensures { result ≡ velocity_over leg seconds }
{
    Vector {
        x: (leg.end.x - leg.start.x) / seconds,
        y: (leg.end.y - leg.start.y) / seconds,
    }
}

// The place so many seconds after the leg's start.
fn place_after(leg: Leg, v: Vector, seconds: f64) -> Vector
    ensures { result ≡ place_after leg v seconds }
{
    Vector {
        x: leg.start.x + v.x * seconds,
        y: leg.start.y + v.y * seconds,
    }
}

// The leg at the instant t, or nothing where its times do not hold t.
#[tactic(auto, unfolding(crate::specs::Motion::motion_at))]
pub fn motion_at(leg: Leg, t: TimePoint) -> Result<Option<State>, Strayed>
    ensures { result ≡ motion_at leg t }
{
    let lasts = leg.end.time.since(leg.start.time)?;
    if !leg.in_range(t) {
        return Ok(None);
    }
    let gone = t.since(leg.start.time)?;
    let velocity = velocity_over(leg, lasts.as_secs_f64());
    let place = place_after(leg, velocity, gone.as_secs_f64());
    Ok(Some(State { place, velocity }))
}
