// A list of answers, one to a line: five words with a space between them, and a newline.
ghost use Rattle.std.specs.Prelude.{◌≡◌};
ghost use Rattle.replay.specs.Line.{call_of, separated, line_of};

use crate::hex;

// The calls of a list.
#[derive(Clone, Copy, PartialEq, Eq)]
pub enum Call {
    SpanBetween,
    InstantAfter,
    SecondsOfInstant,
    SecondsOfSpan,
    InstantOfSeconds,
    SpanOfSeconds,
}

// A call, what it was called with, and its answer: the number handed back, and the first word of the room.
#[derive(Clone, Copy, PartialEq, Eq)]
pub struct Answer {
    pub call: Call,
    pub first: u64,
    pub second: u64,
    pub number: u64,
    pub word: u64,
}

// The call of a number in a list.
fn call_of(number: u64) -> Option<Call>
    ensures { result ≡ call_of number }
{
    match number {
        1 => Some(Call::SpanBetween),
        2 => Some(Call::InstantAfter),
        3 => Some(Call::SecondsOfInstant),
        4 => Some(Call::SecondsOfSpan),
        5 => Some(Call::InstantOfSeconds),
        6 => Some(Call::SpanOfSeconds),
        _ => None,
    }
}

// Whether a space stands after each word of a line but the last, and a newline after that.
#[tactic(auto, unfolding(crate::specs::Line::separated))]
fn is_separated(line: &[u8]) -> bool
    ensures { result ≡ separated line.now }
{
    line.len() == 85
        && line[16] == b' '
        && line[33] == b' '
        && line[50] == b' '
        && line[67] == b' '
        && line[84] == b'\n'
}

// The answer of a line, which has to name one of the six calls.
#[tactic(auto, unfolding(crate::specs::Line::line_of, crate::specs::Line::answer_of))]
pub fn answer_of(line: &[u8]) -> Option<Answer>
    ensures { result ≡ line_of line.now }
{
    if !is_separated(line) {
        return None;
    }
    let which = hex::word_at(line, 0)?;
    let first = hex::word_at(line, 17)?;
    let second = hex::word_at(line, 34)?;
    let number = hex::word_at(line, 51)?;
    let word = hex::word_at(line, 68)?;
    let call = call_of(which)?;
    Some(Answer {
        call,
        first,
        second,
        number,
        word,
    })
}
