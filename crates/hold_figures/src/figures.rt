// Counting a round for its crew (docs/RULES.md, 21.5 to 21.8). A crew has three words: its rounds, and its total and its largest
// hold, each raised by 2^63; all three are 0 while it has no rounds.
ghost use Rattle.std.specs.Prelude.{◌≡◌, ◌+◌, ◌<◌, cond, nat_lt, Option, Some, None};
ghost use Rattle.hold_figures.specs.Words.{raised_sum, with_crew, CountsRound};

use refusals::Refusal;

// Totals and holds are raised by so much.
const RAISE: u64 = 1 << 63;

// The sum of two raised numbers, raised once, where it stands for a signed number of 64 bits.
#[tactic(auto, unfolding(crate::specs::Words::raised_sum))]
fn raised_sum(x: u64, y: u64) -> Option<u64>
    ensures { result ≡ raised_sum x y }
{
    if y < RAISE {
        return x.checked_sub(RAISE - y);
    }
    x.checked_add(y - RAISE)
}

// Puts the three words of a crew.
#[tactic(auto, unfolding(crate::specs::Words::with_crew))]
fn put_crew(figures: &mut [u64; 192], crew: usize, rounds: u64, total: u64, largest: u64)
    requires { crew < 64 }
    ensures { figures.new ≡ with_crew figures.old crew rounds total largest }
{
    figures[3 * crew] = rounds;
    figures[3 * crew + 1] = total;
    figures[3 * crew + 2] = largest;
}

// The last crew.
const LAST_CREW: u64 = 63;

// A crew has no more rounds than a year has lines.
const MOST_ROUNDS: u64 = 100000;

// A crew's rounds and one more, if it may have so many.
fn with_one_more(rounds: u64) -> Option<u64>
    ensures { result ≡ cond (nat_lt rounds 100_000) (Some (rounds + 1)) None }
{
    (rounds < MOST_ROUNDS).then(|| rounds + 1)
}

// Counts a round of a crew, its hold raised by 2^63. A crew past 63 or with all lines of a year already is refused as a line, a
// total that would leave the signed numbers of 64 bits as an overflow; a refusal changes no word.
#[tactic(auto, unfolding(crate::specs::Words::tallied))]
pub fn count_round(figures: &mut [u64; 192], crew: u64, hold: u64) -> Result<(), Refusal>
    ensures { CountsRound crew hold figures.old figures.new result }
{
    if crew > LAST_CREW {
        return Err(Refusal::Line);
    }
    let at = 3 * crew as usize;
    let rounds = figures[at];
    if rounds == 0 {
        put_crew(figures, crew as usize, 1, hold, hold);
        return Ok(());
    }
    let more = with_one_more(rounds).ok_or(Refusal::Line)?;
    let total = raised_sum(figures[at + 1], hold).ok_or(Refusal::Overflow)?;
    let largest = figures[at + 2].max(hold);
    put_crew(figures, crew as usize, more, total, largest);
    Ok(())
}
