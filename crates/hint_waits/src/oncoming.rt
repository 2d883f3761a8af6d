// Waiting for a leg that comes toward the agent and vanishes at its end (docs/RULES.md, 10.28).
ghost use Rattle.std.specs.Prelude.{◌≡◌};
ghost use Rattle.hint_waits.specs.Oncoming.{oncoming_wait};

use courses::course::{Course, Run};
use line_proximity::stationary;
use refusals::Refusal;
use shapes::vector::Vector;
use times::time::TimePoint;

// Where the agent waits for the leg, and until when.
#[tactic(auto, unfolding(crate::specs::Oncoming::oncoming_wait, crate::specs::Parts::agent_after))]
pub fn oncoming_wait(
    agent: Course,
    leg: Run,
    limit: f64,
) -> Result<Option<(Vector, TimePoint)>, Refusal>
    ensures { result ≡ oncoming_wait agent leg limit }
{
    let run = agent.run;
    let near = stationary::compute_stationary_proximity(leg.to, run.from, run.velocity, limit)?;
    match near {
        Some((wait, _)) if wait >= 0.0 => {
            let place = run.from.plus(run.velocity.times(wait));
            Ok(Some((place, leg.end)))
        }
        _ => Ok(None),
    }
}
