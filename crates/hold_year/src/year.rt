// A year's text in parts of any length: begin, feed the parts, finish (docs/RULES.md, 21.5, 21.6 and 21.11).
ghost use Rattle.std.specs.Prelude.{◌≡◌, replicate};
ghost use Rattle.texts.specs.Room.{Tells};
ghost use Rattle.hold_year.specs.Parts.{begun, line_ended, text_ended, Goes, Feeds, finished};

use hold_figures::figures;
use hold_lines::place;
use hold_lines::place::Place;
use hold_report::report;
use refusals::Refusal;
use texts::room;
use texts::room::Told;

// How many lines were taken, and where the reading of the next one stands.
#[derive(Clone, Copy)]
pub struct Reading {
    pub lines: u64,
    pub place: Place,
}

// Before the first byte.
#[tactic(auto, unfolding(crate::specs::Parts::begun))]
pub fn begin() -> Reading
    ensures { result ≡ begun }
{
    Reading {
        lines: 0,
        place: Place::Start,
    }
}

// The most lines of a year.
const MOST_LINES: u64 = 100000;

// A line ends: it is one too many, is no line, or is counted for its crew.
#[tactic(auto, unfolding(crate::specs::Parts::line_ended))]
fn end_line(reading: Reading, figures: &mut [u64; 192]) -> Result<Reading, Refusal>
    ensures { Goes (line_ended reading figures.old) figures.old figures.new result }
{
    let lines = reading.lines;
    if lines >= MOST_LINES {
        return Err(Refusal::Line);
    }
    let line = place::close(reading.place).ok_or(Refusal::Line)?;
    figures::count_round(figures, line.crew, line.raised)?;
    Ok(Reading {
        lines: lines + 1,
        place: Place::Start,
    })
}

// Sets the crews' words to zero.
fn wipe(figures: &mut [u64; 192])
    ensures { figures.new ≡ replicate 192 0 }
{
    *figures = [0; 192];
}

// A line ends in it.
const NEWLINE: u8 = b'\n';

// A part of the text, whatever its length. On a refusal the crews' words are zero throughout. While the part is walked the
// reading's two fields are variables of their own, which stay in registers.
#[tactic(auto, unfolding(crate::specs::Parts::byte_fed), using(crate::proofs::Going::fed_next, crate::proofs::Going::fed_done))]
pub fn feed(reading: Reading, part: &[u8], figures: &mut [u64; 192]) -> Result<Reading, Refusal>
    ensures { Feeds reading part.now figures.old figures.new result }
{
    let mut lines = reading.lines;
    let mut place = reading.place;
    for b in part {
        if *b == NEWLINE {
            match end_line(Reading { lines, place }, figures) {
                Ok(next) => Reading { lines, place } = next,
                Err(why) => {
                    wipe(figures);
                    return Err(why);
                }
            }
        } else {
            place = place::step(place, *b);
            if let Place::Broken = place {
                wipe(figures);
                return Err(Refusal::Line);
            }
        }
    }
    Ok(Reading { lines, place })
}

// The text ends, and with it a line that was begun.
#[tactic(auto, unfolding(crate::specs::Parts::text_ended))]
fn end_text(reading: Reading, figures: &mut [u64; 192]) -> Result<Reading, Refusal>
    ensures { Goes (text_ended reading figures.old) figures.old figures.new result }
{
    if let Place::Start = reading.place {
        return Ok(reading);
    }
    end_line(reading, figures)
}

// What is answered where the text ends here. The crews' words are only read: a last line without its newline is counted in a copy.
#[tactic(auto, unfolding(crate::specs::Parts::finished))]
pub fn finish(reading: Reading, figures: &[u64; 192], out: &mut [u8]) -> Told
    ensures { Tells (finished reading figures.now) out.old out.new result }
{
    let mut own = *figures;
    match end_text(reading, &mut own) {
        Ok(last) => report::put_report(&own, last.lines, out),
        Err(why) => room::refuse(out, u64::from(why)),
    }
}
