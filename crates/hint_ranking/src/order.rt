// Which of two ranked hints stands first (docs/RULES.md, 11.6 and 11.7).
ghost use Rattle.std.specs.Prelude.{◌≡◌};
ghost use Rattle.hint_ranking.specs.Ranked.{goes_before};

use hint_list::hint::RankedHint;

// Whether a stands before b: its contour is smaller, or at the same contour its reach.
#[tactic(auto, unfolding(crate::specs::Ranked::goes_before))]
pub fn goes_before(a: RankedHint, b: RankedHint) -> bool
    ensures { result ≡ goes_before a b }
{
    if a.contour.is_below(b.contour) {
        return true;
    }
    if b.contour.is_below(a.contour) {
        return false;
    }
    a.reach < b.reach
}
