// What each number of a call may be: the table of the domain, a test for each row (docs/RULES.md, section 3).
ghost use Rattle.std.specs.Prelude.{◌≡◌};
ghost use Rattle.domain.specs.Domain.{is_time, is_coordinate, is_radius, is_limit, is_bound, is_speed};
ghost use Rattle.domain.specs.Domain.{is_place, is_waypoint, is_leg, is_profile, is_box};

use floats::comparison;
use shapes::bounding_box::BoundingBox;
use shapes::profile::CircularProfile;
use shapes::vector::Vector;
use shapes::waypoint::{Leg, Waypoint};
use times::time::TimePoint;

#[tactic(auto, unfolding(crate::specs::Domain::is_time))]
pub fn is_time(t: TimePoint) -> bool
    ensures { result ≡ is_time t }
{
    let n = t.0;
    if n < 0 {
        return false;
    }
    n <= 1000000000000000
}

pub fn is_coordinate(x: f64) -> bool
    ensures { result ≡ is_coordinate x }
{
    comparison::is_between(-10000.0, 10000.0, x)
}

// A footprint or a follow buffer.
pub fn is_radius(x: f64) -> bool
    ensures { result ≡ is_radius x }
{
    comparison::is_between(0.0, 100.0, x)
}

// A conflict distance squared.
pub fn is_limit(x: f64) -> bool
    ensures { result ≡ is_limit x }
{
    comparison::is_between(0.0, 1000000.0, x)
}

pub fn is_bound(x: f64) -> bool
    ensures { result ≡ is_bound x }
{
    comparison::is_between(-20000.0, 20000.0, x)
}

// A coordinate of a velocity.
pub fn is_speed(x: f64) -> bool
    ensures { result ≡ is_speed x }
{
    comparison::is_between(-1e14, 1e14, x)
}

#[tactic(auto, unfolding(crate::specs::Domain::is_place))]
pub fn is_place(p: Vector) -> bool
    ensures { result ≡ is_place p }
{
    if !is_coordinate(p.x) {
        return false;
    }
    is_coordinate(p.y)
}

#[tactic(auto, unfolding(crate::specs::Domain::is_waypoint))]
pub fn is_waypoint(w: Waypoint) -> bool
    ensures { result ≡ is_waypoint w }
{
    if !is_time(w.time) {
        return false;
    }
    if !is_coordinate(w.x) {
        return false;
    }
    is_coordinate(w.y)
}

#[tactic(auto, unfolding(crate::specs::Domain::is_leg))]
pub fn is_leg(leg: Leg) -> bool
    ensures { result ≡ is_leg leg }
{
    if !is_waypoint(leg.start) {
        return false;
    }
    is_waypoint(leg.end)
}

#[tactic(auto, unfolding(crate::specs::Domain::is_profile))]
pub fn is_profile(p: CircularProfile) -> bool
    ensures { result ≡ is_profile p }
{
    if !is_radius(p.footprint) {
        return false;
    }
    is_radius(p.follow)
}

#[tactic(auto, unfolding(crate::specs::Domain::is_box))]
pub fn is_box(b: BoundingBox) -> bool
    ensures { result ≡ is_box b }
{
    if !is_bound(b.left) {
        return false;
    }
    if !is_bound(b.bottom) {
        return false;
    }
    if !is_bound(b.right) {
        return false;
    }
    is_bound(b.top)
}
