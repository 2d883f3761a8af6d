// Fields of a stream as the numbers that they stand for (docs/RULES.md, 14.14 and 14.15).
ghost use Rattle.std.specs.Prelude.{◌≡◌, ◌≤◌, ◌+◌};
ghost use Rattle.request_format.specs.Bits.{number_at};
ghost use Rattle.request_format.specs.Format.{point_at, request_at};
ghost use Rattle.request_reader.specs.Table.{double, request_waypoint, request_profile, request_leg};

use number_words::word;
use request_format::bits;
use shapes::profile::CircularProfile;
use shapes::waypoint::{Leg, Waypoint};
use times::time::TimePoint;

// A double of 64 bits.
pub(crate) fn double_at(s: &[u8], at: usize) -> f64
    ensures { result ≡ double (number_at s.now at 64) }
{
    word::double_of(bits::number_at(s, at, 64))
}

// Footprint and follow buffer.
fn profile_at(s: &[u8], at: usize) -> CircularProfile
    requires { at ≤ 500_000 }
    ensures { result ≡ request_profile (number_at s.now at 64) (number_at s.now (at + 64) 64) }
{
    CircularProfile {
        footprint: double_at(s, at),
        follow: double_at(s, at + 64),
    }
}

// A time of 50 bits and a place.
#[tactic(auto, using(request_format::proofs::Digits::number_lt), unfolding(request_format::specs::Format::point_at))]
pub(crate) fn waypoint_at(s: &[u8], at: usize) -> Waypoint
    requires { at ≤ 500_000 }
    ensures { result ≡ request_waypoint (point_at s.now at) }
{
    let time = bits::number_at(s, at, 50);
    Waypoint {
        time: TimePoint(time as i64),
        x: double_at(s, at + 50),
        y: double_at(s, at + 114),
    }
}

// The agent's profile.
#[tactic(auto, unfolding(request_format::specs::Format::request_at))]
pub(crate) fn profile_of(s: &[u8]) -> CircularProfile
    ensures { result ≡ request_profile (request_at s.now).footprint (request_at s.now).follow }
{
    profile_at(s, 26)
}

// The agent's way.
#[tactic(auto, unfolding(request_format::specs::Format::request_at, crate::specs::Table::request_leg))]
pub(crate) fn leg_of(s: &[u8]) -> Leg
    ensures { result ≡ request_leg (request_at s.now) }
{
    Leg {
        start: waypoint_at(s, 154),
        end: waypoint_at(s, 332),
    }
}
