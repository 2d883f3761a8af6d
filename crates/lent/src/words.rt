// An answer in lent words: its words and zero after them, or zero throughout where it is refused
// (docs/RULES.md, 4.12, 4.14 and 4.15).
#![tactic(auto, unfolding(crate::specs::Outcome::number_of, crate::specs::Outcome::room_of, crate::specs::Outcome::wiped))]

ghost use Rattle.std.specs.Prelude.{◌≡◌};
ghost use Rattle.lent.specs.Outcome.{Handed, Gives, Refuses, wiped};

// Sets every word at or after `from` to 0.
pub fn wipe_from(out: &mut [u64], from: usize)
    ensures { out.new ≡ wiped out.old from }
{
    if from < out.len() {
        out[from..].fill(0);
    }
}

// Hands an answer's words over: 0, or 12 where the room is too small for them.
pub fn hand_over(out: &mut [u64], words: &[u64]) -> u64
    ensures { Handed (Gives words.now) out.old out.new result }
{
    if out.len() < words.len() {
        wipe_from(out, 0);
        return refusals::NO_ROOM;
    }
    out[..words.len()].copy_from_slice(words);
    wipe_from(out, words.len());
    0
}

// Hands a refusal over: its number alone, and no word of the room kept.
pub fn refuse(out: &mut [u64], number: u64) -> u64
    ensures { Handed (Refuses number) out.old out.new result }
{
    wipe_from(out, 0);
    number
}
