// The call for arrival times alone: it examines its own input, then does the work (docs/RULES.md, 5.1 to 5.3 and 12.18).
ghost use Rattle.table.specs.Lent.{lent_of};
ghost use Rattle.arrival_times.specs.Listing.{Told};
ghost use Rattle.arrival_times.specs.Asked.{asked_arrivals};

use crate::listing;
use crate::listing::Arrivals;
use refusals::Refusal;
use shapes::profile::CircularProfile;
use shapes::waypoint::{Leg, Waypoint};
use table_checks::examine;
use table_packing::packing;

// The safe arrival times at a place from its time on, for an agent that stands there, among the obstacles of a lent table.
#[tactic(auto, using(crate::proofs::Telling::packed), unfolding(crate::specs::Asked::asked_arrivals))]
pub fn arrival_times(
    p: CircularProfile,
    place: Waypoint,
    starts: &[usize],
    numbers: &[f64],
    times: &[i64],
    xs: &[f64],
    ys: &[f64],
    list: &mut [i64],
) -> Result<Arrivals, Refusal>
    ensures { Told
        (asked_arrivals p place
        (lent_of starts.now numbers.now times.now xs.now ys.now))
        list.old list.new result }
{
    let agent = Leg {
        start: place,
        end: place,
    };
    let mut marks = [0u64; 417];
    let mut places = [0.0; 800];
    let packed = packing::pack(starts, numbers, times, xs, ys, &mut marks, &mut places);
    if let Err(why) = examine::examine(packed, p, agent, &marks, &places) {
        listing::wipe_times(list, 0);
        return Err(why);
    }
    listing::compute_safe_arrival_times(p, place, &marks, &places, list)
}
