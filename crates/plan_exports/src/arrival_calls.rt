// The arrival times: the waypoint comes as plain numbers, the table of obstacles as lent lists.
ghost use Rattle.lent.specs.Outcome.{Handed};
ghost use Rattle.arrival_times.specs.Asked.{asked_arrivals};
ghost use Rattle.arrival_times.specs.Words.{arrivals_outcome};
ghost use Rattle.table.specs.Lent.{lent_of};
ghost use Rattle.shapes.specs.Plain.{plain_profile, plain_waypoint};

use crate::arrival_words;
use arrival_times::calls;
use shapes::profile::CircularProfile;
use shapes::waypoint::Waypoint;
use times::time::TimePoint;

// The safe arrival times at (x, y) from t on among the obstacles of a lent table; no search lists more than 289 of them.
pub fn igelbert_arrival_times(
    footprint: f64,
    follow: f64,
    t: i64,
    x: f64,
    y: f64,
    starts: &[usize],
    numbers: &[f64],
    times: &[i64],
    xs: &[f64],
    ys: &[f64],
    out: &mut [u64],
) -> u64
    ensures { Handed
        (arrivals_outcome
        (asked_arrivals (plain_profile footprint follow) (plain_waypoint t x y)
        (lent_of starts.now numbers.now times.now xs.now
        ys.now)))
        out.old out.new result }
{
    let p = CircularProfile { footprint, follow };
    let place = Waypoint {
        time: TimePoint(t),
        x,
        y,
    };
    let mut list = [0i64; 289];
    let found = calls::arrival_times(p, place, starts, numbers, times, xs, ys, &mut list);
    arrival_words::give_arrivals(found.map_err(u64::from), &list, out)
}
