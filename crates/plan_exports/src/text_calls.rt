// The reply to a request stream, whose text the program `plan` prints.
ghost use Rattle.lent.specs.Outcome.{Handed};
ghost use Rattle.reply.specs.Text.{stream_reply};

use reply::replying;
use texts::room;

// The lines of a plan, as bytes; of a refusal its number alone.
pub fn igelbert_plan(stream: &[u8], out: &mut [u8]) -> u64
    ensures { Handed (stream_reply stream.now) out.old out.new result }
{
    room::told_number(replying::reply(stream, out))
}
