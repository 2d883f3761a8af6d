// The calls for motion and proximity: each examines its own input, then does the work (docs/RULES.md, 5.1 to 5.4 and 5.11).
ghost use Rattle.std.specs.Prelude.{◌≡◌};
ghost use Rattle.proximity.specs.Asked.{asked_position, legs_examined, asked_proximity};

use crate::detect;
use crate::detect::Proximity;
use domain::limits;
use motions::motion;
use motions::motion::State;
use refusals::Refusal;
use shapes::waypoint::Leg;
use times::time::TimePoint;

// Where a leg of the agent's is at the instant t, and how fast it goes, or nothing where its times do not hold t.
#[tactic(auto, unfolding(crate::specs::Asked::asked_position))]
pub fn position(leg: Leg, t: TimePoint) -> Result<Option<State>, Refusal>
    ensures { result ≡ asked_position leg t }
{
    if !limits::is_leg(leg) {
        return Err(Refusal::Number);
    }
    if !limits::is_time(t) {
        return Err(Refusal::Number);
    }
    if leg.is_backward() {
        return Err(Refusal::Backward);
    }
    Ok(motion::motion_at(leg, t)?)
}

// What is wrong with the agent's leg, an obstacle's leg and a limit.
#[tactic(auto, unfolding(crate::specs::Asked::legs_examined))]
pub fn examine_legs(limit: f64, agent: Leg, obstacle: Leg) -> Result<(), Refusal>
    ensures { result ≡ legs_examined limit agent obstacle }
{
    if !obstacle.is_rising() {
        return Err(Refusal::Shape);
    }
    if !limits::is_leg(agent) {
        return Err(Refusal::Number);
    }
    if !limits::is_limit(limit) {
        return Err(Refusal::Number);
    }
    if !limits::is_leg(obstacle) {
        return Err(Refusal::Number);
    }
    if agent.is_backward() {
        return Err(Refusal::Backward);
    }
    Ok(())
}

// When the agent's leg and an obstacle's come within the limit, and when they leave it.
#[tactic(auto, unfolding(crate::specs::Asked::asked_proximity))]
pub fn proximity(limit: f64, agent: Leg, obstacle: Leg) -> Result<Proximity, Refusal>
    ensures { result ≡ asked_proximity limit agent obstacle }
{
    examine_legs(limit, agent, obstacle)?;
    detect::detect_proximity(limit, agent, obstacle)
}
