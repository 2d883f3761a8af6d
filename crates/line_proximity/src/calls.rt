// The call for stationary proximity: it examines its own input, then does the work (docs/RULES.md, 5.3 and 5.11).
ghost use Rattle.std.specs.Prelude.{◌≡◌};
ghost use Rattle.line_proximity.specs.Asked.{is_stay, asked_stationary};

use crate::stationary;
use domain::limits;
use refusals::Refusal;
use shapes::vector::Vector;

// Whether the numbers of a stationary proximity are in the table.
#[tactic(auto, unfolding(crate::specs::Asked::is_stay))]
fn is_stay(r: Vector, p0: Vector, v: Vector, limit: f64) -> bool
    ensures { result ≡ is_stay r p0 v limit }
{
    limits::is_place(r)
        && limits::is_place(p0)
        && limits::is_speed(v.x)
        && limits::is_speed(v.y)
        && limits::is_limit(limit)
}

// When something that goes from p0 by v is within a distance of the place r.
#[tactic(auto, unfolding(crate::specs::Asked::asked_stationary))]
pub fn stationary_proximity(
    r: Vector,
    p0: Vector,
    v: Vector,
    limit: f64,
) -> Result<Option<(f64, f64)>, Refusal>
    ensures { result ≡ asked_stationary r p0 v limit }
{
    if !is_stay(r, p0, v, limit) {
        return Err(Refusal::Number);
    }
    Ok(stationary::compute_stationary_proximity(r, p0, v, limit)?)
}
