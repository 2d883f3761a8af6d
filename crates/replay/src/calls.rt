// The calls of a list, made again on a room of three words.
ghost use Rattle.std.specs.Prelude.{◌≡◌};
ghost use Rattle.lent.specs.Outcome.{Handed};
ghost use Rattle.replay.specs.Listed.{outcome_of, as_listed, verdict_of};

use crate::list;
use crate::list::{Answer, Call};
use number_exports::time_calls;
use number_words::word;

// The first line that is not as listed, or how many lines there are.
#[derive(Clone, Copy, PartialEq, Eq)]
pub enum Verdict {
    AsListed(u64),
    Differs(u64),
    Malformed(u64),
}

// Makes an answer's call anew.
#[tactic(auto, unfolding(crate::specs::Listed::outcome_of), using(crate::proofs::Passed::passed))]
fn call(a: Answer, out: &mut [u64]) -> u64
    ensures { Handed (outcome_of a.call a.first a.second) out.old out.new result }
{
    match a.call {
        Call::SpanBetween => time_calls::igelbert_span_between(
            word::signed_of(a.first),
            word::signed_of(a.second),
            out,
        ),
        Call::InstantAfter => time_calls::igelbert_instant_after(
            word::signed_of(a.first),
            word::signed_of(a.second),
            out,
        ),
        Call::SecondsOfInstant => {
            time_calls::igelbert_seconds_of_instant(word::signed_of(a.first), out)
        }
        Call::SecondsOfSpan => {
            time_calls::igelbert_seconds_of_span(word::signed_of(a.first), out)
        }
        Call::InstantOfSeconds => {
            time_calls::igelbert_instant_of_seconds(word::double_of(a.first), out)
        }
        Call::SpanOfSeconds => {
            time_calls::igelbert_span_of_seconds(word::double_of(a.first), out)
        }
    }
}

// Whether the call hands back the number listed, and leaves the word listed and zeros where no word was zero.
#[tactic(auto, unfolding(crate::specs::Listed::as_listed))]
fn is_as_listed(a: Answer) -> bool
    ensures { result ≡ as_listed a }
{
    let mut room = [1u64; 3];
    let number = call(a, &mut room);
    number == a.number && room[0] == a.word && room[1] == 0 && room[2] == 0
}

// Goes through a list line by line, up to the first line that is malformed or differs.
#[tactic(auto, unfolding(crate::specs::Listed::verdict_of))]
pub fn replay(s: &[u8]) -> Verdict
    ensures { result ≡ verdict_of s.now }
{
    let mut lines = 0u64;
    for line in s.chunks(85) {
        let Some(a) = list::answer_of(line) else {
            return Verdict::Malformed(lines + 1);
        };
        if !is_as_listed(a) {
            return Verdict::Differs(lines + 1);
        }
        lines += 1;
    }
    Verdict::AsListed(lines)
}
