// How a chase begins: where the leg is first seen, and where the first round sets out from (docs/RULES.md, 10.16 to 10.21).
ghost use Rattle.std.specs.Prelude.{◌≡◌};
ghost use Rattle.hint_chasing.specs.Chase.{first_seen, chase_of, opening_of};

use courses::course::{Course, Run};
use shapes::vector::Vector;
use times::time::Strayed;

// The distances that the agent keeps from an obstacle: the critical one, its square, and the one that it follows at.
#[derive(Clone, Copy)]
pub struct Gaps {
    pub critical: f64,
    pub squared: f64,
    pub follow: f64,
}

// What does not change from round to round. `ahead` is how far ahead of the agent's start the leg was seen, `since` when it
// began, `aligned` its speed along the agent's line; `gap` is the critical distance, `rest` the seconds of a wait.
#[derive(Clone, Copy)]
pub struct Chase {
    pub ahead: f64,
    pub since: f64,
    pub aligned: f64,
    pub closing: f64,
    pub gap: f64,
    pub rest: f64,
}

// The first round sets out from `s` metres along the line at `t` seconds, after a wait at a place or without one.
#[derive(Clone, Copy)]
pub enum Opening {
    Waits(Vector, f64, f64),
    Goes(f64, f64),
}

// Where the leg is first seen from the agent's start, and when, in seconds.
#[tactic(auto, unfolding(crate::specs::Chase::first_seen))]
pub fn first_seen(agent: Course, leg: Run) -> Result<(Vector, f64), Strayed>
    ensures { result ≡ first_seen agent leg }
{
    let run = agent.run;
    if leg.start.is_before(run.start) {
        let gone = run.start.since(leg.start)?.as_secs_f64();
        let moved = leg.from.plus(leg.velocity.times(gone));
        Ok((moved.minus(run.from), run.start.as_secs_f64()))
    } else {
        Ok((leg.from.minus(run.from), leg.start.as_secs_f64()))
    }
}

#[tactic(auto, unfolding(crate::specs::Chase::chase_of))]
pub fn chase_of(agent: Course, leg: Run, gaps: Gaps, aligned: f64, ahead: f64) -> Chase
    ensures { result ≡ chase_of agent leg gaps aligned ahead }
{
    Chase {
        ahead,
        since: leg.start.as_secs_f64(),
        aligned,
        closing: agent.speed - aligned,
        gap: gaps.critical,
        rest: gaps.follow / aligned,
    }
}

// The leg is `ahead` metres ahead at t seconds, and the agent follows at the distance `follow`.
#[tactic(auto, unfolding(crate::specs::Chase::opening_of))]
pub fn set_out(agent: Course, follow: f64, aligned: f64, ahead: f64, t: f64) -> Opening
    ensures { result ≡ opening_of agent follow aligned ahead t }
{
    let run = agent.run;
    let from = run.from;
    if ahead <= follow {
        return Opening::Waits(from, 0.0, t + (follow - ahead) / aligned);
    }
    let reached = agent.speed * (t - run.start.as_secs_f64());
    if !(ahead - reached <= follow) {
        return Opening::Goes(reached, t);
    }
    let wait = (ahead - follow) / agent.speed;
    if wait >= 0.0 {
        let s = agent.speed * wait;
        return Opening::Waits(from.plus(agent.direction.times(s)), s, t);
    }
    Opening::Waits(
        from.plus(agent.direction.times(0.0)),
        0.0,
        t + (follow - ahead) / aligned,
    )
}
