// The candidate that may follow one, of one obstacle: `find_next_candidate_time` of the Rust (docs/RULES.md, 12.15 and 12.16).
ghost use Rattle.std.specs.Prelude.{◌≡◌};
ghost use Rattle.arrival_search.specs.Search.{next};
ghost use Rattle.arrival_legs.specs.Watched.{view_at};
ghost use Rattle.arrival_legs.specs.Track.{tracked_from};
ghost use Rattle.arrival_legs.specs.Table.{ending_of};

use crate::near;
use crate::track::Track;
use proximity::detect::Proximity;
use refusals::Refusal;
use shapes::waypoint::Waypoint;
use table::reading;
use times::time::TimePoint;

// The time of the last waypoint, where it is after the candidate and within the limit of the place.
#[tactic(auto, unfolding(crate::specs::Table::ending_of))]
fn ending(place: Waypoint, limit: f64, last: Waypoint, candidate: TimePoint) -> Option<TimePoint>
    ensures { result ≡ ending_of place limit last candidate }
{
    if candidate.is_before(last.time) && near::ends_near(place, limit, last) {
        return Some(last.time);
    }
    None
}

// The obstacle of a track. A leg without an exit leaves it to the next.
#[tactic(auto, using(crate::proofs::Walking::following), unfolding(arrival_search::specs::Legs::follows))]
pub fn find_next_candidate_time(
    place: Waypoint,
    track: Track,
    marks: &[u64; 417],
    places: &[f64; 800],
    candidate: TimePoint,
) -> Result<Option<TimePoint>, Refusal>
    ensures { result ≡ next (view_at place) candidate (tracked_from track marks.now places.now track.first) }
{
    if track.last <= track.first {
        return Ok(None);
    }
    for i in track.first..track.last {
        let leg = reading::leg_at(marks, places, i);
        if leg.end.time.is_before(candidate) {
            continue;
        }
        let Proximity::Passes(_, exit) = near::near_leg(place, track.limit, leg)? else {
            continue;
        };
        if candidate.is_before(exit) {
            return Ok(Some(exit));
        }
    }
    let w = reading::waypoint_at(marks, places, track.last);
    Ok(ending(place, track.limit, w, candidate))
}
