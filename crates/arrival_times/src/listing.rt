// The safe arrival times at a place: `compute_safe_arrival_times` of the Rust (docs/RULES.md, 12.3 to 12.18).
ghost use Rattle.std.specs.Prelude.{◌≡◌, set};
ghost use Rattle.table.specs.Table.{obstacles_in};
ghost use Rattle.arrival_legs.specs.Watched.{arrivals_at};
ghost use Rattle.arrival_times.specs.Listing.{Stored, Told, wiped_times};

use crate::turn;
use arrival_search::turn::Turn;
use refusals::Refusal;
use shapes::profile::CircularProfile;
use shapes::waypoint::Waypoint;
use times::time::TimePoint;

// How many times are listed, and by how many sweeps.
#[derive(Clone, Copy, PartialEq, Eq)]
pub struct Arrivals {
    pub listed: usize,
    pub sweeps: usize,
}

// Puts an instant at place i of a list, where it has one.
fn put_time(list: &mut [i64], i: usize, t: TimePoint)
    ensures { list.new ≡ set list.old i t.0 }
{
    let ns = t.0;
    if i < list.len() {
        list[i] = ns;
    }
}

// Sets every instant at or after `from` to 0.
#[tactic(auto, unfolding(crate::specs::Listing::wiped_times))]
pub(crate) fn wipe_times(list: &mut [i64], from: usize)
    ensures { list.new ≡ wiped_times list.old from }
{
    let kept = from.min(list.len());
    list[kept..].fill(0);
}

// The search; its times stand at the front of `list` as far as there is room. It ends
// because no search makes more sweeps than one for each leg and obstacle and one more.
#[tactic(auto, using(crate::proofs::Keeping::keeping))]
fn search_times(
    p: CircularProfile,
    place: Waypoint,
    marks: &[u64; 417],
    places: &[f64; 800],
    list: &mut [i64],
) -> Result<Arrivals, Refusal>
    ensures { Stored (arrivals_at p place (obstacles_in marks.now places.now)) list.old list.new
        result }
{
    let mut candidate = place.time;
    let mut listed = 0;
    let mut sweeps = 0;
    loop {
        let turn = turn::turn_from(p, place, marks, places, candidate)?;
        sweeps += 1;
        match turn {
            Turn::Ends => return Ok(Arrivals { listed, sweeps }),
            Turn::Lists => {
                put_time(list, listed, candidate);
                listed += 1;
                return Ok(Arrivals { listed, sweeps });
            }
            Turn::Goes(t) => candidate = t,
            Turn::ListsGoes(t) => {
                put_time(list, listed, candidate);
                candidate = t;
                listed += 1;
            }
        }
    }
}

// The times at the front of `list` and zero after them; zero throughout where the search is refused, or where there are more times
// than places, which is refused 12.
pub fn compute_safe_arrival_times(
    p: CircularProfile,
    place: Waypoint,
    marks: &[u64; 417],
    places: &[f64; 800],
    list: &mut [i64],
) -> Result<Arrivals, Refusal>
    ensures { Told (arrivals_at p place (obstacles_in marks.now places.now)) list.old list.new result }
{
    match search_times(p, place, marks, places, list) {
        Ok(found) => {
            if list.len() < found.listed {
                wipe_times(list, 0);
                return Err(Refusal::NoRoom);
            }
            wipe_times(list, found.listed);
            Ok(found)
        }
        Err(why) => {
            wipe_times(list, 0);
            Err(why)
        }
    }
}
