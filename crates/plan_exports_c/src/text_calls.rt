// The reply to a request stream, whose text the program `plan` prints.
ghost use Rattle.lent.specs.Outcome.{Handed};
ghost use Rattle.reply.specs.Text.{stream_reply};

// The lines of a plan, as bytes; of a refusal its number alone.
#[unsafe(no_mangle)]
pub extern "C" fn igelbert_plan(stream: &[u8], out: &mut [u8]) -> u64
    ensures { Handed (stream_reply stream.now) out.old out.new result }
{
    plan_exports::text_calls::igelbert_plan(stream, out)
}
