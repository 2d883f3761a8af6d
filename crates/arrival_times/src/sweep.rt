// A sweep: one candidate taken through all obstacles in order (docs/RULES.md, 12.4 and 12.11).
ghost use Rattle.std.specs.Prelude.{◌≡◌, false};
ghost use Rattle.table.specs.Table.{obstacles_in};
ghost use Rattle.arrival_search.specs.Search.{sweep};
ghost use Rattle.arrival_legs.specs.Watched.{view_at, watched_all};

use arrival_legs::{adjust, track};
use arrival_search::turn::{Adjustment, Swept};
use refusals::Refusal;
use shapes::profile::CircularProfile;
use shapes::waypoint::Waypoint;
use table::reading;
use times::time::TimePoint;

// Takes a candidate through all obstacles in order.
#[tactic(auto, using(crate::proofs::Sweeping::sweeping), unfolding(table::specs::Table::obstacles_in))]
pub fn sweep_from(
    p: CircularProfile,
    place: Waypoint,
    marks: &[u64; 417],
    places: &[f64; 800],
    began: TimePoint,
) -> Result<Swept, Refusal>
    ensures { result ≡ sweep (view_at place) began false (watched_all p (obstacles_in marks.now places.now)) }
{
    let mut candidate = began;
    let mut pushed = false;
    let count = reading::count_of(marks);
    for o in 0..count {
        let track = track::track_of(p, marks, places, o);
        match adjust::adjust_candidate_time(place, track, marks, places, candidate)? {
            Adjustment::Quiet => {}
            Adjustment::Pushed(t) => {
                candidate = t;
                pushed = true;
            }
            Adjustment::Lost => return Ok(Swept::Lost),
        }
    }
    if pushed {
        return Ok(Swept::Moved(candidate));
    }
    Ok(Swept::Still)
}
