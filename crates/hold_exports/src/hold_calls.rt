// A year's holds, part by part (docs/RULES.md, 21.11 and 21.12).
ghost use Rattle.lent.specs.Outcome.{Handed};
ghost use Rattle.hold_exports.specs.Memory.{begun_memory, fed_memory, finished_memory};

use crate::kept;
use hold_year::year;
use lent::words;
use refusals::Refusal;
use texts::room;

// Begins a year in a memory of 197 words.
#[tactic(auto, unfolding(crate::specs::Memory::begun_memory, crate::specs::Memory::memory_words, hold_year::specs::Parts::begun))]
pub fn igelbert_holds_begin(memory: &mut [u64]) -> u64
    ensures { Handed begun_memory memory.old memory.new result }
{
    let mut begun = [0u64; 197];
    begun[0] = 1;
    words::hand_over(memory, &begun)
}

// Feeds a part of the text.
#[tactic(auto, unfolding(crate::specs::Memory::fed_memory), using(crate::proofs::Calls::kept_long))]
pub fn igelbert_holds_feed(part: &[u8], memory: &mut [u64]) -> u64
    ensures { Handed (fed_memory memory.old part.now) memory.old memory.new result }
{
    let Some(reading) = kept::reading_of(memory) else {
        return words::refuse(memory, u64::from(Refusal::Shape));
    };
    let mut figures = kept::figures_of(memory);
    match year::feed(reading, part, &mut figures) {
        Ok(next) => kept::keep(next, &figures, memory),
        Err(why) => words::refuse(memory, u64::from(why)),
    }
}

// The report of what was fed so far, as bytes. The memory stays as it is.
#[tactic(auto, unfolding(crate::specs::Memory::finished_memory), using(crate::proofs::Calls::finishing))]
pub fn igelbert_holds_finish(memory: &[u64], out: &mut [u8]) -> u64
    ensures { Handed (finished_memory memory.now) out.old out.new result }
{
    let Some(reading) = kept::reading_of(memory) else {
        return room::told_number(room::refuse(out, u64::from(Refusal::Shape)));
    };
    let figures = kept::figures_of(memory);
    room::told_number(year::finish(reading, &figures, out))
}
