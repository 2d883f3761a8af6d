// The whole plan: the agent comes as plain numbers, the table of obstacles as lent lists.
ghost use Rattle.table.specs.Lent.{lent_of};
ghost use Rattle.plan_model.specs.Asked.{asked_plan};
ghost use Rattle.plan_model.specs.Laid.{PlanHanded};
ghost use Rattle.shapes.specs.Plain.{plain_leg, plain_profile};

// The whole plan among the obstacles of a lent table: counts and paths in one room, the actions of all paths in the other.
#[unsafe(no_mangle)]
pub extern "C" fn igelbert_linear_paths(
    footprint: f64,
    follow: f64,
    t0: i64,
    x0: f64,
    y0: f64,
    t1: i64,
    x1: f64,
    y1: f64,
    budget: u64,
    starts: &[usize],
    numbers: &[f64],
    times: &[i64],
    xs: &[f64],
    ys: &[f64],
    paths: &mut [u64],
    actions: &mut [u64],
) -> u64
    ensures { PlanHanded
        (asked_plan (plain_profile footprint follow) (plain_leg t0 x0 y0 t1 x1 y1) budget
        (lent_of starts.now numbers.now times.now xs.now ys.now))
        paths.old paths.new actions.old actions.new result }
{
    plan_exports::plan_calls::igelbert_linear_paths(
        footprint, follow, t0, x0, y0, t1, x1, y1, budget, starts, numbers, times, xs, ys, paths,
        actions,
    )
}
