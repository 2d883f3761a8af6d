// A year's holds, part by part (docs/RULES.md, 21.11 and 21.12).
ghost use Rattle.lent.specs.Outcome.{Handed};
ghost use Rattle.hold_exports.specs.Memory.{begun_memory, fed_memory, finished_memory};

// Begins a year in a memory of 197 words.
#[unsafe(no_mangle)]
pub extern "C" fn igelbert_holds_begin(memory: &mut [u64]) -> u64
    ensures { Handed begun_memory memory.old memory.new result }
{
    hold_exports::hold_calls::igelbert_holds_begin(memory)
}

// Feeds a part of the text.
#[unsafe(no_mangle)]
pub extern "C" fn igelbert_holds_feed(part: &[u8], memory: &mut [u64]) -> u64
    ensures { Handed (fed_memory memory.old part.now) memory.old memory.new result }
{
    hold_exports::hold_calls::igelbert_holds_feed(part, memory)
}

// The report of what was fed so far, as bytes. The memory stays as it is.
#[unsafe(no_mangle)]
pub extern "C" fn igelbert_holds_finish(memory: &[u64], out: &mut [u8]) -> u64
    ensures { Handed (finished_memory memory.now) out.old out.new result }
{
    hold_exports::hold_calls::igelbert_holds_finish(memory, out)
}
