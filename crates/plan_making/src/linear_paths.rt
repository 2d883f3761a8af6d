// The whole plan: `compute_safe_linear_paths` of the Rust (docs/RULES.md, 13.1 and 13.4).
ghost use Rattle.std.specs.Prelude.{◌≡◌, true, List, ℕ, ◌≤◌, length, Ok};
ghost use Rattle.table.specs.Examined.{is_few};
ghost use Rattle.table.specs.Table.{obstacles_in};
ghost use Rattle.hint_list.specs.Words.{hints_in};
ghost use Rattle.plan_model.specs.Plan as Q;
ghost use Rattle.plan_model.specs.Plan.{paths_for, instants_of, times_planned, hints_planned};
ghost use Rattle.plan_model.specs.Laid.{PutPaths, PlanHanded};

use arrival_times::listing;
use hint_list::entries;
use hints::path_hints;
use lent::rows;
use one_path::arrival_path;
use one_path::arrival_path::Found;
use path_tests::trip::Trip;
use plan_model::rooms;
use plan_model::rooms::Paths;
use refusals::Refusal;
use shapes::bounding_box::BoundingBox;
use times::time::TimePoint;

// A path or none for each arrival time of a list.
fn put_paths(
    trip: Trip,
    hints: &[u64; 385],
    budget: u64,
    list: &[i64],
    marks: &[u64; 417],
    places: &[f64; 800],
    paths: &mut [u64],
    actions: &mut [u64],
) -> Result<Paths, Refusal>
    requires { length list.now ≤ 289 }
    ensures { PutPaths
        (paths_for trip (obstacles_in marks.now places.now) (hints_in hints.now) budget
        (instants_of list.now))
        paths.old paths.new actions.old actions.new result }
{
    let mut found = 0;
    let mut row = 0;
    for ns in list {
        let arrival = TimePoint(*ns);
        let path = arrival_path::compute_safe_arrival_path(
            trip, arrival, hints, budget, marks, places, actions, row,
        )?;
        match path {
            Found::Missing(_) => {}
            Found::Path(many, pops, hold) => {
                rooms::put_path(paths, 1 + found, arrival, pops, hold, many);
                found += 1;
                row += many;
            }
        }
    }
    Ok(Paths {
        paths: found,
        actions: row,
    })
}

// Behind the paths and actions that were put, the row that counts them, and zero after all; or the refusal of one of them.
fn finish(
    put: Result<Paths, Refusal>,
    hints: usize,
    times: usize,
    sweeps: usize,
    paths: &mut [u64],
    actions: &mut [u64],
) -> u64
    requires { (found many : ℕ) → put ≡ Ok (record { paths = found; actions = many }) → found ≤ 289 }
    ensures { (answer : Q.Paths) (room rows : List ℕ) → PutPaths answer room paths.old rows actions.old put →
        PlanHanded (Q.planned hints times sweeps answer) room paths.new rows actions.new result }
{
    match put {
        Err(why) => rooms::refuse(paths, actions, u64::from(why)),
        Ok(many) => {
            rows::put_row(
                paths,
                0,
                hints as u64,
                times as u64,
                sweeps as u64,
                many.paths as u64,
            );
            rooms::settle(paths, 1 + many.paths, actions, many.actions)
        }
    }
}

// The arrival times at the goal, then the paths.
fn plan_times(
    trip: Trip,
    hints: &[u64; 385],
    budget: u64,
    marks: &[u64; 417],
    places: &[f64; 800],
    paths: &mut [u64],
    actions: &mut [u64],
) -> u64
    requires { is_few (obstacles_in marks.now places.now) ≡ true }
    ensures { PlanHanded
        (times_planned trip (obstacles_in marks.now places.now) (hints_in hints.now) budget)
        paths.old paths.new actions.old actions.new result }
{
    let leg = trip.leg;
    let profile = trip.profile;
    let mut list = [0i64; 289];
    match listing::compute_safe_arrival_times(profile, leg.end, marks, places, &mut list) {
        Err(why) => rooms::refuse(paths, actions, u64::from(why)),
        Ok(arrivals) => {
            let put = put_paths(
                trip,
                hints,
                budget,
                &list[..arrivals.listed],
                marks,
                places,
                paths,
                actions,
            );
            let n = entries::count_of(hints);
            finish(put, n, arrivals.listed, arrivals.sweeps, paths, actions)
        }
    }
}

// The hints of the trip, then the arrival times and the paths.
pub(crate) fn compute_safe_linear_paths(
    trip: Trip,
    budget: u64,
    marks: &[u64; 417],
    places: &[f64; 800],
    paths: &mut [u64],
    actions: &mut [u64],
) -> u64
    requires { is_few (obstacles_in marks.now places.now) ≡ true }
    ensures { PlanHanded (hints_planned trip (obstacles_in marks.now places.now) budget) paths.old
        paths.new actions.old actions.new result }
{
    let leg = trip.leg;
    let profile = trip.profile;
    let bounds = BoundingBox::for_line(profile.footprint, leg);
    let mut hints = [0u64; 385];
    let filled = path_hints::compute_safe_linear_path_wait_hints(
        profile, leg, bounds, marks, places, &mut hints,
    );
    match filled {
        Err(why) => rooms::refuse(paths, actions, u64::from(why)),
        Ok(_count) => plan_times(trip, &hints, budget, marks, places, paths, actions),
    }
}
