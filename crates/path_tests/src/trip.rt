// The agent's trip (docs/RULES.md, 13.2).
use shapes::profile::CircularProfile;
use shapes::waypoint::Leg;

// Who goes, from where to where, and how fast.
#[derive(Clone, Copy)]
pub struct Trip {
    pub profile: CircularProfile,
    pub leg: Leg,
    pub speed: f64,
}
