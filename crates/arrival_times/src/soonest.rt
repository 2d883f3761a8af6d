// The next candidate: the smallest that any obstacle allows (docs/RULES.md, 12.15 to 12.17).
ghost use Rattle.std.specs.Prelude.{◌≡◌, Ok, None};
ghost use Rattle.table.specs.Table.{obstacles_in};
ghost use Rattle.arrival_search.specs.Search.{soonest};
ghost use Rattle.arrival_legs.specs.Watched.{view_at, watched_all};

use arrival_legs::{next_candidate, track};
use arrival_search::next;
use refusals::Refusal;
use shapes::profile::CircularProfile;
use shapes::waypoint::Waypoint;
use table::reading;
use times::time::TimePoint;

// The smallest candidate that may follow, over all obstacles.
#[tactic(auto, using(crate::proofs::Sweeping::following), unfolding(table::specs::Table::obstacles_in))]
pub fn soonest_of(
    p: CircularProfile,
    place: Waypoint,
    marks: &[u64; 417],
    places: &[f64; 800],
    candidate: TimePoint,
) -> Result<Option<TimePoint>, Refusal>
    ensures { result ≡ soonest (view_at place) candidate (Ok None) (watched_all p (obstacles_in marks.now places.now)) }
{
    let mut best = Ok(None);
    let count = reading::count_of(marks);
    for o in 0..count {
        let track = track::track_of(p, marks, places, o);
        let found = next_candidate::find_next_candidate_time(
            place, track, marks, places, candidate,
        )?;
        if let Some(t) = found {
            best = next::sooner_of(t, best);
        }
    }
    best
}
