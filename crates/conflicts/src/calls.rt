// The call for conflict: it examines its own input, then does the work (docs/RULES.md, 5.1 to 5.4 and 5.11).
ghost use Rattle.std.specs.Prelude.{◌≡◌};
ghost use Rattle.conflicts.specs.Asked.{carts_examined, asked_conflict};

use crate::conflict;
use crate::conflict::Verdict;
use domain::limits;
use proximity::calls;
use refusals::Refusal;
use shapes::bounding_box::BoundingBox;
use shapes::profile::CircularProfile;
use shapes::waypoint::Leg;

// What is wrong with the two profiles, and then with the legs and the limit.
#[tactic(auto, unfolding(crate::specs::Asked::carts_examined))]
fn examine_carts(
    p: CircularProfile,
    q: CircularProfile,
    limit: f64,
    agent: Leg,
    obstacle: Leg,
) -> Result<(), Refusal>
    ensures { result ≡ carts_examined p q limit agent obstacle }
{
    if !obstacle.is_rising() {
        return Err(Refusal::Shape);
    }
    if !limits::is_profile(p) {
        return Err(Refusal::Number);
    }
    if !limits::is_profile(q) {
        return Err(Refusal::Number);
    }
    calls::examine_legs(limit, agent, obstacle)
}

// Whether the agent's leg and an obstacle's are in conflict, each in the box of its own footprint.
#[tactic(auto, unfolding(crate::specs::Asked::asked_conflict))]
pub fn conflict(
    p: CircularProfile,
    agent: Leg,
    q: CircularProfile,
    obstacle: Leg,
    limit: f64,
) -> Result<Verdict, Refusal>
    ensures { result ≡ asked_conflict p agent q obstacle limit }
{
    examine_carts(p, q, limit, agent, obstacle)?;
    let agent_box = BoundingBox::for_line(p.footprint, agent);
    let obstacle_box = BoundingBox::for_line(q.footprint, obstacle);
    conflict::have_conflict(agent, agent_box, obstacle, obstacle_box, limit)
}
