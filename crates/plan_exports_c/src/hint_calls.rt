// The hints: the agent comes as plain numbers, the table of obstacles as lent lists.
ghost use Rattle.lent.specs.Outcome.{Handed};
ghost use Rattle.hint_words.specs.Lent.{hints_outcome};
ghost use Rattle.hints.specs.Asked.{asked_hints};
ghost use Rattle.table.specs.Lent.{lent_of};
ghost use Rattle.shapes.specs.Plain.{plain_leg, plain_profile};

// The ranked hints for the agent's leg among the obstacles of a lent table.
#[unsafe(no_mangle)]
pub extern "C" fn igelbert_wait_hints(
    footprint: f64,
    follow: f64,
    t0: i64,
    x0: f64,
    y0: f64,
    t1: i64,
    x1: f64,
    y1: f64,
    starts: &[usize],
    numbers: &[f64],
    times: &[i64],
    xs: &[f64],
    ys: &[f64],
    out: &mut [u64],
) -> u64
    ensures { Handed
        (hints_outcome
        (asked_hints (plain_profile footprint follow) (plain_leg t0 x0 y0 t1 x1 y1)
        (lent_of starts.now numbers.now times.now xs.now
        ys.now)))
        out.old out.new result }
{
    plan_exports::hint_calls::igelbert_wait_hints(
        footprint, follow, t0, x0, y0, t1, x1, y1, starts, numbers, times, xs, ys, out,
    )
}
