// The calls for distances and boxes: each examines its own input, then does the work (docs/RULES.md, 5.3 and 5.4).
ghost use Rattle.std.specs.Prelude.{◌≡◌, ◌&&◌};
ghost use Rattle.shapes.specs.Distance.{critical_distance, critical_distance_squared, follow_distance};
ghost use Rattle.domain.specs.Domain.{is_profile};
ghost use Rattle.domain.specs.Asked.{asked_distance, asked_box, asked_overlap};

use crate::limits;
use refusals::Refusal;
use shapes::bounding_box::BoundingBox;
use shapes::profile::CircularProfile;
use shapes::waypoint::Leg;

#[tactic(auto, unfolding(crate::specs::Domain::is_profile))]
fn are_profiles(p: CircularProfile, q: CircularProfile) -> bool
    ensures { result ≡ (is_profile p && is_profile q) }
{
    if !limits::is_profile(p) {
        return false;
    }
    limits::is_profile(q)
}

#[tactic(auto, unfolding(crate::specs::Asked::asked_distance, shapes::specs::Distance::critical_distance))]
pub fn critical_distance(p: CircularProfile, q: CircularProfile) -> Result<f64, Refusal>
    ensures { result ≡ asked_distance p q (critical_distance p q) }
{
    if !are_profiles(p, q) {
        return Err(Refusal::Number);
    }
    Ok(p.critical_distance_for(q))
}

#[tactic(auto, unfolding(crate::specs::Asked::asked_distance, shapes::specs::Distance::critical_distance_squared))]
pub fn critical_distance_squared(p: CircularProfile, q: CircularProfile) -> Result<f64, Refusal>
    ensures { result ≡ asked_distance p q (critical_distance_squared p q) }
{
    if !are_profiles(p, q) {
        return Err(Refusal::Number);
    }
    Ok(p.critical_distance_squared_for(q))
}

#[tactic(auto, unfolding(crate::specs::Asked::asked_distance, shapes::specs::Distance::follow_distance))]
pub fn follow_distance(p: CircularProfile, q: CircularProfile) -> Result<f64, Refusal>
    ensures { result ≡ asked_distance p q (follow_distance p q) }
{
    if !are_profiles(p, q) {
        return Err(Refusal::Number);
    }
    Ok(p.follow_distance_for(q))
}

// The box of a leg of the agent's.
#[tactic(auto, unfolding(crate::specs::Asked::asked_box))]
pub fn box_of_leg(p: CircularProfile, leg: Leg) -> Result<BoundingBox, Refusal>
    ensures { result ≡ asked_box p leg }
{
    if !limits::is_profile(p) {
        return Err(Refusal::Number);
    }
    if !limits::is_leg(leg) {
        return Err(Refusal::Number);
    }
    if leg.is_backward() {
        return Err(Refusal::Backward);
    }
    Ok(BoundingBox::for_line(p.footprint, leg))
}

// Whether two boxes have a point in common.
#[tactic(auto, unfolding(crate::specs::Asked::asked_overlap))]
pub fn boxes_overlap(p: BoundingBox, q: BoundingBox) -> Result<bool, Refusal>
    ensures { result ≡ asked_overlap p q }
{
    if !limits::is_box(p) {
        return Err(Refusal::Number);
    }
    if !limits::is_box(q) {
        return Err(Refusal::Number);
    }
    Ok(p.overlaps(q))
}
