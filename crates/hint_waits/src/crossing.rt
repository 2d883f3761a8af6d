// Waiting for a leg that crosses the agent's way (docs/RULES.md, 10.9 to 10.13).
ghost use Rattle.std.specs.Prelude.{◌≡◌};
ghost use Rattle.hint_waits.specs.Crossing.{before_crossing, beside_line, crossing_wait};

use courses::course::{Course, Run};
use courses::norm;
use line_proximity::near_line;
use refusals::Refusal;
use shapes::vector::Vector;
use times::time::TimePoint;

// The agent is beside the leg's way after `wait` seconds, and the leg leaves the agent's way after `end` seconds of its own. There
// is nothing to wait for where the agent gets there only later.
#[tactic(auto, unfolding(crate::specs::Crossing::before_crossing, crate::specs::Parts::agent_after))]
fn before_crossing(
    agent: Course,
    leg: Run,
    wait: f64,
    end: f64,
) -> Result<Option<(Vector, TimePoint)>, Refusal>
    ensures { result ≡ before_crossing agent leg wait end }
{
    if !(0.0 <= wait) {
        return Ok(None);
    }
    let run = agent.run;
    let until = leg.start.plus_secs_f64(end)?;
    let arrival = run.start.plus_secs_f64(wait)?;
    if until.is_before(arrival) {
        return Ok(None);
    }
    Ok(Some((run.from.plus(run.velocity.times(wait)), until)))
}

// The leg leaves the agent's way after `end` seconds of its own; where the agent comes near the leg's way it waits.
#[tactic(auto, unfolding(crate::specs::Crossing::beside_line))]
fn beside_line(
    agent: Course,
    leg: Run,
    limit: f64,
    end: f64,
) -> Result<Option<(Vector, TimePoint)>, Refusal>
    ensures { result ≡ beside_line agent leg limit end }
{
    let u = norm::try_normalize(leg.to.minus(leg.from))?.ok_or(Refusal::NoLine)?;
    let run = agent.run;
    let near = near_line::compute_quadratic_wait_hints(
        leg.from,
        leg.to,
        u,
        run.from,
        run.to,
        run.seconds,
        limit,
    )?;
    match near {
        Some((begin, _)) => before_crossing(agent, leg, begin, end),
        None => Ok(None),
    }
}

// Where the agent waits for the leg, and until when.
#[tactic(auto, unfolding(crate::specs::Crossing::crossing_wait))]
pub fn crossing_wait(
    agent: Course,
    leg: Run,
    limit: f64,
) -> Result<Option<(Vector, TimePoint)>, Refusal>
    ensures { result ≡ crossing_wait agent leg limit }
{
    let run = agent.run;
    let obstruction = near_line::compute_quadratic_wait_hints(
        run.from,
        run.to,
        agent.direction,
        leg.from,
        leg.to,
        leg.seconds,
        limit,
    )?;
    match obstruction {
        Some((_, end)) => beside_line(agent, leg, limit, end),
        None => Ok(None),
    }
}
