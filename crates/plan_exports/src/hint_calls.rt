// The hints: the agent comes as plain numbers, the table of obstacles as lent lists.
ghost use Rattle.lent.specs.Outcome.{Handed};
ghost use Rattle.hint_words.specs.Lent.{hints_outcome};
ghost use Rattle.hints.specs.Asked.{asked_hints};
ghost use Rattle.table.specs.Lent.{lent_of};
ghost use Rattle.shapes.specs.Plain.{plain_leg, plain_profile};
ghost use Rattle.plan_exports.specs.Given.{filled_outcome};

use hint_list::entries;
use hints::calls;
use lent::words;
use refusals::Refusal;
use shapes::legs;
use shapes::profile::CircularProfile;

// Hands over the words of hints, or their refusal.
fn give_hints(filled: Result<usize, Refusal>, hints: &[u64], out: &mut [u64]) -> u64
    ensures { Handed (filled_outcome filled hints.now) out.old out.new result }
{
    match filled {
        Ok(_count) => words::hand_over(out, hints),
        Err(why) => words::refuse(out, u64::from(why)),
    }
}

// The ranked hints for the agent's leg among the obstacles of a lent table.
pub fn igelbert_wait_hints(
    footprint: f64,
    follow: f64,
    t0: i64,
    x0: f64,
    y0: f64,
    t1: i64,
    x1: f64,
    y1: f64,
    starts: &[usize],
    numbers: &[f64],
    times: &[i64],
    xs: &[f64],
    ys: &[f64],
    out: &mut [u64],
) -> u64
    ensures { Handed
        (hints_outcome
        (asked_hints (plain_profile footprint follow) (plain_leg t0 x0 y0 t1 x1 y1)
        (lent_of starts.now numbers.now times.now xs.now
        ys.now)))
        out.old out.new result }
{
    let p = CircularProfile { footprint, follow };
    let agent = legs::leg_of(t0, x0, y0, t1, x1, y1);
    let mut hints = [0u64; 385];
    let filled = calls::wait_hints(p, agent, starts, numbers, times, xs, ys, &mut hints);
    let end = 1 + 6 * entries::count_of(&hints);
    give_hints(filled, &hints[..end], out)
}
