// The reply to a stream in a lent room, and the text that is printed for it (docs/RULES.md, 14.18 and 15.1 to 15.11).
ghost use Rattle.std.specs.Prelude.{◌≡◌, ◌++◌, ◌-◌, ◌≤◌, length, replicate};
ghost use Rattle.texts.specs.Room.{Tells};
ghost use Rattle.reply.specs.Text.{stream_reply, stream_text};

use reply_lines::line;
use reply_text::answer;
use request_reader::calls;
use texts::room;
use texts::room::Told;

// Lends the plan rooms for 289 paths and 1,600 actions: a search lists at most 289 arrival times. So a reply has at most
// 1,891 lines, and each of them at most 87 bytes.
pub fn reply(s: &[u8], out: &mut [u8]) -> Told
    ensures tells { Tells (stream_reply s.now) out.old out.new result }
    ensures few_bytes { length (stream_text s.now) ≤ 164517 }
{
    let mut paths = [0u64; 1160];
    let mut actions = [0u64; 6400];
    let number = calls::plan(s, &mut paths, &mut actions);
    if number != 0 {
        return room::refuse(out, number);
    }
    answer::put_answer(&paths, &actions, out)
}

// What is printed, in a room that holds the longest text: how long it is. A refusal leaves the room zero, and its line is put.
pub fn whole_reply(s: &[u8], out: &mut [u8; 164517]) -> usize
    ensures count { result ≡ length (stream_text s.now) }
    ensures room { out.new ≡ stream_text s.now ++ replicate (164517 - length (stream_text s.now)) 0 }
{
    match reply(s, out) {
        Told::Text(length) => length,
        Told::Refused(number) => line::put_refused(out, number),
    }
}
