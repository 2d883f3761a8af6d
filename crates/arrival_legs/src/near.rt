// How near a leg of an obstacle comes to the place that is asked for, and whether the obstacle ends near it
// (docs/RULES.md, 12.2 and 12.16).
ghost use Rattle.std.specs.Prelude.{◌≡◌};
ghost use Rattle.arrival_legs.specs.Watched.{standing_leg, near_of, ends_near};

use proximity::detect;
use proximity::detect::Proximity;
use refusals::Refusal;
use shapes::waypoint::{Leg, Waypoint};

// The agent standing at the place for as long as the leg lasts.
#[tactic(auto, unfolding(crate::specs::Watched::standing_leg))]
fn stand(place: Waypoint, leg: Leg) -> Leg
    ensures { result ≡ standing_leg place leg }
{
    let start = leg.start.time;
    let end = leg.end.time;
    Leg {
        start: Waypoint {
            time: start,
            x: place.x,
            y: place.y,
        },
        end: Waypoint {
            time: end,
            x: place.x,
            y: place.y,
        },
    }
}

// When the leg comes within the limit of the place, and when it leaves it.
#[tactic(auto, unfolding(crate::specs::Watched::near_of))]
pub fn near_leg(place: Waypoint, limit: f64, leg: Leg) -> Result<Proximity, Refusal>
    ensures { result ≡ near_of place limit leg }
{
    detect::detect_proximity(limit, stand(place, leg), leg)
}

// Whether an obstacle that ends at a waypoint ends within the limit of the place.
#[tactic(auto, unfolding(crate::specs::Watched::ends_near))]
pub fn ends_near(place: Waypoint, limit: f64, last: Waypoint) -> bool
    ensures { result ≡ ends_near place limit last }
{
    let apart = last.place().minus(place.place());
    apart.dot(apart) <= limit
}
