// Waiting for a leg that stands in the agent's way, or nearly so (docs/RULES.md, 10.24 to 10.27).
ghost use Rattle.std.specs.Prelude.{◌≡◌};
ghost use Rattle.hint_waits.specs.Standing.{first_begin, near_ends, standing_wait};

use courses::course::{Course, Run};
use line_proximity::stationary;
use refusals::Refusal;
use shapes::vector::Vector;
use times::time::TimePoint;

// When the agent comes near, of the seconds for the two ends of a leg: those from 0 on count, the earlier of two, and of two equal
// ones the first.
#[tactic(auto, unfolding(crate::specs::Standing::first_begin))]
fn earlier(first: f64, second: f64) -> Option<f64>
    ensures { result ≡ first_begin first second }
{
    if !(first >= 0.0) {
        if !(second >= 0.0) {
            return None;
        }
        return Some(second);
    }
    if !(second >= 0.0) {
        return Some(first);
    }
    if second < first {
        return Some(second);
    }
    Some(first)
}

// The agent comes near the start of the leg in `first` seconds, and near its end in `second`.
#[tactic(auto, unfolding(crate::specs::Standing::near_ends, crate::specs::Parts::agent_after))]
fn near_ends(agent: Course, leg: Run, first: f64, second: f64) -> Option<(Vector, TimePoint)>
    ensures { result ≡ near_ends agent leg first second }
{
    let wait = earlier(first, second)?;
    let run = agent.run;
    Some((run.from.plus(run.velocity.times(wait)), leg.end))
}

// Where the agent waits for the leg, and until when.
#[tactic(auto, unfolding(crate::specs::Standing::standing_wait))]
pub fn standing_wait(
    agent: Course,
    leg: Run,
    limit: f64,
) -> Result<Option<(Vector, TimePoint)>, Refusal>
    ensures { result ≡ standing_wait agent leg limit }
{
    let Run { from, velocity, .. } = agent.run;
    let at_start = stationary::compute_stationary_proximity(leg.from, from, velocity, limit)?;
    let Some((first, _)) = at_start else {
        return Ok(None);
    };
    let at_end = stationary::compute_stationary_proximity(leg.to, from, velocity, limit)?;
    let Some((second, _)) = at_end else {
        return Ok(None);
    };
    Ok(near_ends(agent, leg, first, second))
}
