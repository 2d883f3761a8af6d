// What one obstacle does to a candidate: `adjust_candidate_time` of the Rust (docs/RULES.md, 12.5 to 12.10).
ghost use Rattle.std.specs.Prelude.{◌≡◌};
ghost use Rattle.table.specs.Table.{waypoint_in};
ghost use Rattle.arrival_search.specs.Search.{flee, adjust};
ghost use Rattle.arrival_legs.specs.Watched.{view_at};
ghost use Rattle.arrival_legs.specs.Track.{tracked_from};

use crate::near;
use crate::track::Track;
use arrival_search::leaving;
use arrival_search::turn::Adjustment;
use proximity::detect::Proximity;
use refusals::Refusal;
use shapes::waypoint::Waypoint;
use table::reading;
use times::time::TimePoint;

// Violated: the first exit in the legs of an obstacle from waypoint `from` on, else the last waypoint's time. A leg without
// an exit leaves it to the next.
#[tactic(auto, using(crate::proofs::Walking::fleeing), unfolding(arrival_search::specs::Legs::relieved))]
fn flee_from(
    place: Waypoint,
    track: Track,
    marks: &[u64; 417],
    places: &[f64; 800],
    from: usize,
    candidate: TimePoint,
) -> Result<Adjustment, Refusal>
    ensures { result ≡ flee (view_at place) candidate (waypoint_in marks.now places.now track.last).time
        (tracked_from track marks.now places.now from) }
{
    for i in from..track.last {
        let leg = reading::leg_at(marks, places, i);
        if leg.end.time.is_before(candidate) {
            continue;
        }
        let Proximity::Passes(_, exit) = near::near_leg(place, track.limit, leg)? else {
            continue;
        };
        return leaving::left_at(exit, candidate);
    }
    let finish = reading::waypoint_at(marks, places, track.last).time;
    if candidate.is_before(finish) {
        return Ok(Adjustment::Pushed(finish));
    }
    Ok(Adjustment::Lost)
}

// The obstacle of a track. A leg without an entry leaves it to the next; one without an exit violates
// the candidate, and the legs after it are asked for an exit.
#[tactic(auto, using(crate::proofs::Walking::looking), unfolding(arrival_search::specs::Legs::meets))]
pub fn adjust_candidate_time(
    place: Waypoint,
    track: Track,
    marks: &[u64; 417],
    places: &[f64; 800],
    candidate: TimePoint,
) -> Result<Adjustment, Refusal>
    ensures { result ≡ adjust (view_at place) candidate (tracked_from track marks.now places.now track.first) }
{
    for i in track.first..track.last {
        let leg = reading::leg_at(marks, places, i);
        if leg.end.time.is_before(candidate) {
            continue;
        }
        if candidate.is_before(leg.start.time) {
            return Ok(Adjustment::Quiet);
        }
        let near = near::near_leg(place, track.limit, leg)?;
        let Some(enter) = near.entry() else {
            continue;
        };
        if candidate.is_before(enter) {
            return Ok(Adjustment::Quiet);
        }
        let Proximity::Passes(_, exit) = near else {
            return flee_from(place, track, marks, places, i + 1, candidate);
        };
        if candidate.is_before(exit) {
            return Ok(Adjustment::Pushed(exit));
        }
    }
    Ok(Adjustment::Quiet)
}
