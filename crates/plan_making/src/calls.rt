// The calls for a whole plan: each examines its own input, then does the work (docs/RULES.md, 5.1 to 5.7).
ghost use Rattle.std.specs.Prelude.{◌≡◌, true};
ghost use Rattle.table.specs.Lent.{lent_of};
ghost use Rattle.table.specs.Examined.{is_few};
ghost use Rattle.table.specs.Table.{obstacles_in};
ghost use Rattle.plan_model.specs.Plan.{long_plan};
ghost use Rattle.plan_model.specs.Laid.{PlanHanded};
ghost use Rattle.plan_model.specs.Asked.{table_plan, asked_plan};

use crate::linear_paths;
use domain::beside;
use hints::contour;
use path_tests::trip::Trip;
use plan_model::rooms;
use shapes::profile::CircularProfile;
use shapes::waypoint::Leg;
use table_checks::examine;
use table_packing::packing;

// The plan among at most 32 obstacles with 256 legs; refused 4 where the agent's line is too short.
#[tactic(auto, unfolding(plan_model::specs::Plan::long_plan))]
fn plan_among(
    p: CircularProfile,
    agent: Leg,
    budget: u64,
    marks: &[u64; 417],
    places: &[f64; 800],
    paths: &mut [u64],
    actions: &mut [u64],
) -> u64
    requires { is_few (obstacles_in marks.now places.now) ≡ true }
    ensures { PlanHanded (long_plan p agent budget (obstacles_in marks.now places.now)) paths.old
        paths.new actions.old actions.new result }
{
    match contour::scale_of(agent) {
        Err(why) => rooms::refuse(paths, actions, u64::from(why)),
        Ok(scale) => {
            let trip = Trip {
                profile: p,
                leg: agent,
                speed: scale.speed,
            };
            linear_paths::compute_safe_linear_paths(trip, budget, marks, places, paths, actions)
        }
    }
}

// The whole plan among the obstacles of a packed table: counts and paths in one room, the actions of all paths in the other.
pub fn plan_table(
    packed: bool,
    p: CircularProfile,
    agent: Leg,
    budget: u64,
    marks: &[u64; 417],
    places: &[f64; 800],
    paths: &mut [u64],
    actions: &mut [u64],
) -> u64
    ensures { PlanHanded (table_plan packed p agent budget (obstacles_in marks.now places.now)) paths.old
        paths.new actions.old actions.new result }
{
    let found = examine::examine(packed, p, agent, marks, places).map_err(u64::from);
    let input = beside::with_numbers_told(beside::is_budget(budget), found);
    match input {
        Err(number) => rooms::refuse(paths, actions, number),
        Ok(()) => {
            if agent.is_brief() {
                return rooms::move_at_once(agent, paths, actions);
            }
            plan_among(p, agent, budget, marks, places, paths, actions)
        }
    }
}

// The same among the obstacles of lent lists.
pub fn linear_paths(
    p: CircularProfile,
    agent: Leg,
    budget: u64,
    starts: &[usize],
    numbers: &[f64],
    times: &[i64],
    xs: &[f64],
    ys: &[f64],
    paths: &mut [u64],
    actions: &mut [u64],
) -> u64
    ensures { PlanHanded
        (asked_plan p agent budget
        (lent_of starts.now numbers.now times.now xs.now ys.now))
        paths.old paths.new actions.old actions.new result }
{
    let mut marks = [0u64; 417];
    let mut places = [0.0; 800];
    let packed = packing::pack(starts, numbers, times, xs, ys, &mut marks, &mut places);
    plan_table(packed, p, agent, budget, &marks, &places, paths, actions)
}
