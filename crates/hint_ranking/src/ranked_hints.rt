// Ranked hints in a lent list of words (docs/RULES.md, 11.6 to 11.10).
ghost use Rattle.std.specs.Prelude.{◌≡◌, ◌<◌, take};
ghost use Rattle.hint_list.specs.Words.{count_in, hints_in};
ghost use Rattle.hint_ranking.specs.Ranked.{sorted};
ghost use Rattle.hint_ranking.specs.Hints.{rank_of, ranked_into};

use crate::order;
use hint_list::entries;
use hint_list::hint::RankedHint;

// How many of the first n hints stand in front of the place of one more.
#[tactic(auto, using(crate::proofs::Places::placing))]
fn place_of(hints: &[u64; 385], n: usize, h: RankedHint) -> usize
    requires { n < count_in hints.now }
    ensures { result ≡ rank_of h (take n (hints_in hints.now)) }
{
    for i in 0..n {
        if order::goes_before(h, entries::hint_at(hints, i)) {
            return i;
        }
    }
    n
}

// Puts a hint at its place among the first n: those behind it move up by one, over the one that stood at place n. Where there is no
// such place nothing changes.
#[tactic(auto, unfolding(crate::specs::Hints::ranked_into))]
pub fn put_in_rank(hints: &mut [u64; 385], n: usize, h: RankedHint)
    ensures { hints.new ≡ ranked_into hints.old n h }
{
    if entries::count_of(hints) <= n {
        return;
    }
    let at = place_of(hints, n, h);
    for j in (at..n).rev() {
        let x = entries::hint_at(hints, j);
        entries::put_hint(hints, j + 1, x);
    }
    entries::put_hint(hints, at, h);
}

// Whether no hint goes before the one in front of it.
#[tactic(auto, using(crate::proofs::Places::sorting))]
pub fn is_ranked(hints: &[u64; 385]) -> bool
    ensures { result ≡ sorted (hints_in hints.now) }
{
    for i in 1..entries::count_of(hints) {
        let x = entries::hint_at(hints, i - 1);
        let y = entries::hint_at(hints, i);
        if order::goes_before(y, x) {
            return false;
        }
    }
    true
}
