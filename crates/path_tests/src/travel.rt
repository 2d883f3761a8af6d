// When the agent is at a place: `make_parent_arrival` of the Rust (docs/RULES.md, 13.3).
ghost use Rattle.std.specs.Prelude.{◌≡◌};
ghost use Rattle.path_tests.specs.Travel.{hint_waypoint, reached_from};

use courses::norm;
use hint_list::hint::WaitHint;
use refusals::Refusal;
use shapes::vector::Vector;
use shapes::waypoint::Waypoint;

// The waypoint of a hint: its place, at the end of the wait.
#[tactic(auto, unfolding(crate::specs::Travel::hint_waypoint))]
pub fn waypoint_of(hint: WaitHint) -> Waypoint
    ensures { result ≡ hint_waypoint hint }
{
    let at = hint.place;
    let time = hint.until;
    Waypoint {
        time,
        x: at.x,
        y: at.y,
    }
}

// The waypoint at a place that the agent reaches from another at this speed.
#[tactic(auto, unfolding(crate::specs::Travel::reached_from))]
pub fn arrival_at(speed: f64, from: Waypoint, place: Vector) -> Result<Waypoint, Refusal>
    ensures { result ≡ reached_from speed from place }
{
    let distance = norm::norm(place.minus(from.place()))?;
    let time = from.time.plus_secs_f64(distance / speed)?;
    Ok(Waypoint {
        time,
        x: place.x,
        y: place.y,
    })
}
