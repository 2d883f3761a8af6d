// The contour and the reach of a hint (docs/RULES.md, 11.1 to 11.4).
ghost use Rattle.std.specs.Prelude.{◌≡◌};
ghost use Rattle.hints.specs.Contour.{scale_of, contour_of, grade_of};

use courses::norm;
use hint_list::hint::{RankedHint, WaitHint};
use refusals::Refusal;
use shapes::vector::Vector;
use shapes::waypoint::Leg;
use times::time::{Duration, Strayed, TimePoint};

// What hints are measured by: the agent's start, its direction, and its speed along it.
#[derive(Clone, Copy)]
pub struct Scale {
    pub start: TimePoint,
    pub from: Vector,
    pub direction: Vector,
    pub speed: f64,
}

// The scale of a leg of the agent's; refused 4 where it is shorter than 1e-8.
#[tactic(auto, unfolding(crate::specs::Contour::scale_of))]
pub fn scale_of(agent: Leg) -> Result<Scale, Refusal>
    ensures { result ≡ scale_of agent }
{
    let Leg { start, end } = agent;
    let from = start.place();
    let way = end.place().minus(from);
    let distance = norm::norm(way)?;
    if distance < 1e-8 {
        return Err(Refusal::NoLine);
    }
    let seconds = end.time.since(start.time)?.as_secs_f64();
    Ok(Scale {
        start: start.time,
        from,
        direction: way.over(distance),
        speed: distance / seconds,
    })
}

// How late the agent is that waits for so many seconds after its start, so far along its line.
#[tactic(auto, unfolding(crate::specs::Contour::contour_of))]
fn contour_of(speed: f64, wait: f64, reach: f64) -> Result<Duration, Strayed>
    ensures { result ≡ contour_of speed wait reach }
{
    if speed > 1e-8 {
        return Duration::from_secs_f64(wait - reach / speed);
    }
    Duration::from_secs_f64(wait)
}

#[tactic(auto, unfolding(crate::specs::Contour::grade_of))]
pub fn grade_of(scale: Scale, hint: WaitHint) -> Result<RankedHint, Strayed>
    ensures { result ≡ grade_of scale hint }
{
    let reach = hint.place.minus(scale.from).dot(scale.direction);
    let wait = hint.until.since(scale.start)?.as_secs_f64();
    let contour = contour_of(scale.speed, wait, reach)?;
    Ok(RankedHint {
        contour,
        reach,
        hint,
    })
}
