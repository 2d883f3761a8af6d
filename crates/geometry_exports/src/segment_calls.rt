// The safe segment: the agent comes as plain numbers, the table of obstacles as lent lists.
ghost use Rattle.lent.specs.Outcome.{Handed};
ghost use Rattle.conflicts.specs.Conflict.{verdict_outcome};
ghost use Rattle.segments.specs.Asked.{asked_segment};
ghost use Rattle.table.specs.Lent.{lent_of};
ghost use Rattle.shapes.specs.Plain.{plain_leg, plain_profile};

use crate::proximity_words;
use segments::calls;
use shapes::legs;
use shapes::profile::CircularProfile;

// Whether the agent's leg is safe among the obstacles of a lent table.
pub fn igelbert_is_safe_segment(
    footprint: f64,
    follow: f64,
    t0: i64,
    x0: f64,
    y0: f64,
    t1: i64,
    x1: f64,
    y1: f64,
    starts: &[usize],
    numbers: &[f64],
    times: &[i64],
    xs: &[f64],
    ys: &[f64],
    out: &mut [u64],
) -> u64
    ensures { Handed
        (verdict_outcome
        (asked_segment (plain_profile footprint follow) (plain_leg t0 x0 y0 t1 x1 y1)
        (lent_of starts.now numbers.now times.now xs.now
        ys.now)))
        out.old out.new result }
{
    let p = CircularProfile { footprint, follow };
    let agent = legs::leg_of(t0, x0, y0, t1, x1, y1);
    proximity_words::give_verdict(
        calls::segment(p, agent, starts, numbers, times, xs, ys).map_err(u64::from),
        out,
    )
}
