// How the lent lists of a table are read (docs/RULES.md, 20.7): `times`, `xs` and `ys` hold the waypoints of all obstacles one
// after another, `starts` where each obstacle's begin, `numbers` its footprint, follow buffer and conflict distance squared. What a
// list does not reach reads as zero; the calls refuse such lists before any work.
ghost use Rattle.std.specs.Prelude.{◌≡◌, get_or, pos};
ghost use Rattle.floats.specs.Constants.{nought};
ghost use Rattle.table.specs.Lent.{start_in, profile_listed, limit_listed, waypoint_listed};

use shapes::profile::CircularProfile;
use shapes::waypoint::Waypoint;
use times::time::TimePoint;

// An element of a list of doubles.
pub fn number_at(list: &[f64], i: usize) -> f64
    ensures { result ≡ get_or list.now i nought }
{
    list.get(i).copied().unwrap_or(0.0)
}

// An instant of the list of times.
pub fn time_at(times: &[i64], i: usize) -> TimePoint
    ensures { result ≡ record { 0 = get_or times.now i (pos 0) } }
{
    TimePoint(times.get(i).copied().unwrap_or(0))
}

// Where the waypoints of obstacle o begin; past the last obstacle, how many waypoints there are.
pub fn start_of(starts: &[usize], count: usize, o: usize) -> usize
    ensures { result ≡ start_in starts.now count o }
{
    starts.get(o).copied().unwrap_or(count)
}

// The footprint and the follow buffer of obstacle o.
pub fn profile_at(numbers: &[f64], o: usize) -> CircularProfile
    ensures { result ≡ profile_listed numbers.now o }
{
    if numbers.len() <= o {
        return CircularProfile {
            footprint: 0.0,
            follow: 0.0,
        };
    }
    CircularProfile {
        footprint: number_at(numbers, 3 * o),
        follow: number_at(numbers, 3 * o + 1),
    }
}

// Its conflict distance squared.
pub fn limit_at(numbers: &[f64], o: usize) -> f64
    ensures { result ≡ limit_listed numbers.now o }
{
    if numbers.len() <= o {
        return 0.0;
    }
    number_at(numbers, 3 * o + 2)
}

// Waypoint i of the table.
pub fn waypoint_at(times: &[i64], xs: &[f64], ys: &[f64], i: usize) -> Waypoint
    ensures { result ≡ waypoint_listed times.now xs.now ys.now i }
{
    Waypoint {
        time: time_at(times, i),
        x: number_at(xs, i),
        y: number_at(ys, i),
    }
}
