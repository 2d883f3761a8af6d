// One path: the agent comes as plain numbers, the table of obstacles as lent lists, lent hints as words.
ghost use Rattle.lent.specs.Outcome.{Handed};
ghost use Rattle.table.specs.Lent.{lent_of};
ghost use Rattle.one_path.specs.Asked.{asked_path, path_outcome};
ghost use Rattle.shapes.specs.Plain.{instant_of, plain_leg, plain_profile};

// One path for an arrival time, by way of lent hints, among the obstacles of a lent table.
#[unsafe(no_mangle)]
pub extern "C" fn igelbert_arrival_path(
    footprint: f64,
    follow: f64,
    t0: i64,
    x0: f64,
    y0: f64,
    t1: i64,
    x1: f64,
    y1: f64,
    arrival: i64,
    budget: u64,
    starts: &[usize],
    numbers: &[f64],
    times: &[i64],
    xs: &[f64],
    ys: &[f64],
    hints: &[u64],
    out: &mut [u64],
) -> u64
    ensures { Handed
        (path_outcome
        (asked_path (plain_profile footprint follow) (plain_leg t0 x0 y0 t1 x1 y1) (instant_of arrival) budget
        hints.now
        (lent_of starts.now numbers.now times.now xs.now
        ys.now)))
        out.old out.new result }
{
    plan_exports::path_calls::igelbert_arrival_path(
        footprint, follow, t0, x0, y0, t1, x1, y1, arrival, budget, starts, numbers, times, xs, ys,
        hints, out,
    )
}
