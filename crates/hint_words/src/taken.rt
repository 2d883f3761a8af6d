// Hints that a call is lent: as words, the way the call for hints hands them out, taken over into a list of the call's own
// (docs/RULES.md, 11.9 and 11.10).
ghost use Rattle.std.specs.Prelude.{◌≡◌, true, ◌++◌, ◌+◌, ◌-◌, ◌*◌, get_or, take, replicate};
ghost use Rattle.lent.specs.Listed.{every};
ghost use Rattle.hint_list.specs.Words.{hints_in};
ghost use Rattle.hint_words.specs.Lent.{is_finite, is_hint, are_shaped, lent_hints, Takes};

use floats::comparison;
use hint_list::hint::RankedHint;
use hint_list::{entries, hint};
use hint_ranking::ranked_hints;
use refusals::Refusal;

// Whether the count is at most 64, and the words reach as far.
#[tactic(auto, unfolding(crate::specs::Lent::are_shaped))]
fn are_shaped(words: &[u64]) -> bool
    ensures { result ≡ are_shaped words.now }
{
    if words.len() == 0 {
        return false;
    }
    let n = words[0];
    if 64 < n {
        return false;
    }
    1 + 6 * n as usize <= words.len()
}

// Copies lent hints, with zero behind them.
#[tactic(auto, using(crate::proofs::Lending::zeros_behind), unfolding(crate::specs::Lent::are_shaped))]
fn copy(words: &[u64], hints: &mut [u64; 385])
    requires { are_shaped words.now ≡ true }
    ensures { hints.new ≡ take (1 + 6 * get_or words.now 0 0) words.now ++ replicate
        (384 - 6 * get_or words.now 0 0) 0 }
{
    *hints = [0; 385];
    let end = 1 + 6 * words[0] as usize;
    hints[..end].copy_from_slice(&words[..end]);
}

#[tactic(auto, unfolding(crate::specs::Lent::is_finite))]
fn is_finite(x: f64) -> bool
    ensures { result ≡ is_finite x }
{
    comparison::is_between(-1.7976931348623157e308, 1.7976931348623157e308, x)
}

// Whether a hint's numbers are in the table, with so many obstacles.
#[tactic(auto, unfolding(crate::specs::Lent::is_hint))]
fn is_hint(h: RankedHint, obstacles: usize) -> bool
    ensures { result ≡ is_hint obstacles h }
{
    let hint = h.hint;
    if !h.contour.is_exact() {
        return false;
    }
    if !is_finite(h.reach) {
        return false;
    }
    if !hint::is_placed(hint.place) {
        return false;
    }
    if !hint.until.is_exact() {
        return false;
    }
    hint.obstacle < obstacles
}

// Whether all of them are.
#[tactic(auto, using(crate::proofs::Lending::testing), unfolding(hint_list::specs::Words::hints_in))]
fn are_hints(hints: &[u64; 385], obstacles: usize) -> bool
    ensures { result ≡ every (is_hint obstacles) (hints_in hints.now) }
{
    for i in 0..entries::count_of(hints) {
        if !is_hint(entries::hint_at(hints, i), obstacles) {
            return false;
        }
    }
    true
}

// Takes lent hints over: refused 2 for their count, then 1 for their numbers and for hints that are not ranked.
#[tactic(auto, using(crate::proofs::Lending::lending), unfolding(crate::specs::Lent::lent_hints, crate::specs::Lent::copied_by))]
pub fn lent_hints(words: &[u64], obstacles: usize, hints: &mut [u64; 385]) -> Result<usize, Refusal>
    ensures { Takes (lent_hints obstacles words.now) words.now hints.new result }
{
    if !are_shaped(words) {
        *hints = [0; 385];
        return Err(Refusal::Shape);
    }
    copy(words, hints);
    if !are_hints(hints, obstacles) {
        *hints = [0; 385];
        return Err(Refusal::Number);
    }
    if !ranked_hints::is_ranked(hints) {
        *hints = [0; 385];
        return Err(Refusal::Number);
    }
    Ok(entries::count_of(hints))
}
