// Instants and spans, one word each.
ghost use Rattle.lent.specs.Outcome.{Handed, Refuses};
ghost use Rattle.refusals.specs.Names.{STRAYED};
ghost use Rattle.times.specs.Time.{span_outcome, instant_outcome};

use lent::words;
use number_words::word;
use refusals::Refusal;
use times::time::{Duration, Strayed, TimePoint};

// The refusal of an instant or a span past 2^53 nanoseconds (docs/RULES.md, 4.7).
fn refuse_strayed(why: Strayed, out: &mut [u64]) -> u64
    ensures { Handed (Refuses STRAYED) out.old out.new result }
{
    words::refuse(out, u64::from(Refusal::from(why)))
}

pub fn give_instant(t: Result<TimePoint, Strayed>, out: &mut [u64]) -> u64
    ensures { Handed (instant_outcome t) out.old out.new result }
{
    match t {
        Ok(at) => words::hand_over(out, &[word::of_signed(at.0)]),
        Err(why) => refuse_strayed(why, out),
    }
}

pub fn give_span(s: Result<Duration, Strayed>, out: &mut [u64]) -> u64
    ensures { Handed (span_outcome s) out.old out.new result }
{
    match s {
        Ok(d) => words::hand_over(out, &[word::of_signed(d.0)]),
        Err(why) => refuse_strayed(why, out),
    }
}
