// A leg in motion, and the agent's course: what the hints ask of both (docs/RULES.md, 10.1, 10.2, 10.7 and 10.14).
ghost use Rattle.std.specs.Prelude.{◌≡◌};
ghost use Rattle.courses.specs.Course.{run_of, course_of};

use crate::norm;
use refusals::Refusal;
use shapes::vector::Vector;
use shapes::waypoint::Leg;
use times::time::{Strayed, TimePoint};

// A leg with its seconds and its velocity.
#[derive(Clone, Copy)]
pub struct Run {
    pub start: TimePoint,
    pub end: TimePoint,
    pub from: Vector,
    pub to: Vector,
    pub seconds: f64,
    pub velocity: Vector,
}

// The agent's leg, its direction and length, and its speed along it.
#[derive(Clone, Copy)]
pub struct Course {
    pub run: Run,
    pub direction: Vector,
    pub distance: f64,
    pub speed: f64,
}

// A leg in motion.
#[tactic(auto, unfolding(crate::specs::Course::run_of))]
pub fn run_of(leg: Leg) -> Result<Run, Strayed>
    ensures { result ≡ run_of leg }
{
    let Leg { start, end } = leg;
    let seconds = end.time.since(start.time)?.as_secs_f64();
    let from = start.place();
    let to = end.place();
    Ok(Run {
        start: start.time,
        end: end.time,
        from,
        to,
        seconds,
        velocity: to.minus(from).over(seconds),
    })
}

// The course of a leg; none for one that is not longer than 1e-8.
#[tactic(auto, unfolding(crate::specs::Course::course_of))]
pub fn course_of(leg: Leg) -> Result<Option<Course>, Refusal>
    ensures { result ≡ course_of leg }
{
    let way = leg.end.place().minus(leg.start.place());
    let distance = norm::norm(way)?;
    if distance > 1e-8 {
        let run = run_of(leg)?;
        let speed = norm::norm(run.velocity)?;
        Ok(Some(Course {
            run,
            direction: way.over(distance),
            distance,
            speed,
        }))
    } else {
        Ok(None)
    }
}
