// The lines of a report, from the crews' words (docs/RULES.md, 21.8 to 21.10). Totals and largest holds are raised by 2^63 there.
ghost use Rattle.std.specs.Prelude.{◌+◌, ◌<◌, ◌≤◌, ◌++◌, length};
ghost use Rattle.lent.specs.Outcome.{Gives};
ghost use Rattle.number_words.specs.Word.{word_of};
ghost use Rattle.texts.specs.Numerals.{count_field, time_field};
ghost use Rattle.texts.specs.Room.{PutText, Tells};
ghost use Rattle.hold_figures.specs.Crews.{mean_of, remainder_of};
ghost use Rattle.hold_report.specs.Report.{idle_line, figures_line};
ghost use Rattle.hold_report.specs.Told.{lowered_of, crew_told, crews_told, words_report};

use texts::room::Told;
use texts::{numerals, room};

// Totals and largest holds are raised by so much.
const RAISE: u64 = 1 << 63;

// Puts the number that a raised one stands for.
#[tactic(auto, using(crate::proofs::Lowered::word_lowered))]
fn put_lowered(out: &mut [u8], at: usize, raised: u64) -> usize
    ensures { PutText (time_field (word_of (lowered_of raised))) out.old at out.new result }
{
    numerals::put_time(out, at, raised.wrapping_add(RAISE))
}

// Puts the mean of a raised total over so many rounds, rounded down, and what is left above it.
fn put_mean(out: &mut [u8], at: usize, total: u64, rounds: u64) -> usize
    requires { 0 < rounds }
    ensures { PutText
        (time_field (word_of (mean_of (lowered_of total) rounds)) ++ count_field (remainder_of (lowered_of total) rounds))
        out.old at out.new result }
{
    if total < RAISE {
        let below = RAISE - 1 - total;
        let size = below / rounds + 1;
        let next = numerals::put_time(out, at, size.wrapping_neg());
        return numerals::put_count(out, next, rounds - 1 - below % rounds);
    }
    let above = total - RAISE;
    let next = numerals::put_time(out, at, above / rounds);
    numerals::put_count(out, next, above % rounds)
}

// Puts the line of a crew without rounds.
fn put_idle(out: &mut [u8], at: usize, crew: u64) -> usize
    ensures { PutText (idle_line crew) out.old at out.new result }
{
    let mut next = room::put_word(out, at, b"crew");
    next = numerals::put_count(out, next, crew);
    next = numerals::put_count(out, next, 0);
    next = numerals::put_count(out, next, 0);
    room::put_byte(out, next, b'\n')
}

// Puts the line of one with rounds.
fn put_figures(out: &mut [u8], at: usize, crew: u64, rounds: u64, total: u64, largest: u64) -> usize
    requires { 0 < rounds }
    ensures { PutText (figures_line crew rounds (lowered_of total) (lowered_of largest)) out.old at out.new result }
{
    let mut next = room::put_word(out, at, b"crew");
    next = numerals::put_count(out, next, crew);
    next = numerals::put_count(out, next, rounds);
    next = put_lowered(out, next, total);
    next = put_lowered(out, next, largest);
    next = put_mean(out, next, total, rounds);
    room::put_byte(out, next, b'\n')
}

// Puts the line of a crew, by its three words.
#[tactic(auto, unfolding(crate::specs::Told::crew_told))]
fn put_crew(out: &mut [u8], at: usize, figures: &[u64; 192], crew: usize) -> usize
    requires { crew < 64 }
    ensures { PutText (crew_told figures.now crew) out.old at out.new result }
{
    let rounds = figures[3 * crew];
    if rounds == 0 {
        return put_idle(out, at, crew as u64);
    }
    put_figures(
        out,
        at,
        crew as u64,
        rounds,
        figures[3 * crew + 1],
        figures[3 * crew + 2],
    )
}

// Puts the lines of all crews.
fn put_crews(out: &mut [u8], at: usize, figures: &[u64; 192]) -> usize
    requires { at ≤ length out.old + 1 }
    ensures { PutText (crews_told figures.now 64 0) out.old at out.new result }
{
    let mut next = at;
    for crew in 0..64 {
        next = put_crew(out, next, figures, crew);
    }
    next
}

// The report of so many lines, from the crews' words that they made.
pub fn put_report(figures: &[u64; 192], lines: u64, out: &mut [u8]) -> Told
    ensures { Tells (Gives (words_report lines figures.now)) out.old out.new result }
{
    let mut end = room::put_word(out, 0, b"ok");
    end = numerals::put_count(out, end, lines);
    end = room::put_byte(out, end, b'\n');
    end = put_crews(out, end, figures);
    room::settle(out, end)
}
