// A sweep from a candidate, and what follows it (docs/RULES.md, 12.11 to 12.17).
ghost use Rattle.std.specs.Prelude.{◌≡◌};
ghost use Rattle.table.specs.Table.{obstacles_in};
ghost use Rattle.arrival_search.specs.Search.{turn};
ghost use Rattle.arrival_legs.specs.Watched.{view_at, watched_all};

use crate::{soonest, sweep};
use arrival_search::turn::{Swept, Turn};
use refusals::Refusal;
use shapes::profile::CircularProfile;
use shapes::waypoint::Waypoint;
use times::time::TimePoint;

#[tactic(auto, unfolding(arrival_search::specs::Search::turn))]
pub fn turn_from(
    p: CircularProfile,
    place: Waypoint,
    marks: &[u64; 417],
    places: &[f64; 800],
    candidate: TimePoint,
) -> Result<Turn, Refusal>
    ensures { result ≡ turn (view_at place) (watched_all p (obstacles_in marks.now places.now)) candidate }
{
    match sweep::sweep_from(p, place, marks, places, candidate)? {
        Swept::Lost => Ok(Turn::Ends),
        Swept::Moved(t) if t != candidate => Ok(Turn::Goes(t)),
        Swept::Moved(_) => Err(Refusal::Stuck),
        Swept::Still => match soonest::soonest_of(p, place, marks, places, candidate)? {
            Some(t) => Ok(Turn::ListsGoes(t)),
            None => Ok(Turn::Lists),
        },
    }
}
