// What is printed of a year, in a room of 5,386 bytes, which is enough for every report (docs/RULES.md, 15.5 and 21.9).
ghost use Rattle.std.specs.Prelude.{◌≡◌, length};
ghost use Rattle.reply_lines.specs.Lines.{refused_line};
ghost use Rattle.hold_year.specs.Printed.{finish_text, room_with};

use crate::year;
use crate::year::Reading;
use reply_lines::line;
use texts::room;
use texts::room::Told;

// The one line of a refusal, with zero behind it: how long it is.
pub fn print_refusal(number: u64, out: &mut [u8; 5386]) -> usize
    ensures value { result ≡ length (refused_line number) }
    ensures out_after { out.new ≡ room_with (refused_line number) }
{
    room::refuse(out, number);
    line::put_refused(out, number)
}

// The report where the text ends here, or the line of a refusal, with zero behind it: how long it is.
pub fn print_finish(reading: Reading, figures: &[u64; 192], out: &mut [u8; 5386]) -> usize
    ensures value { result ≡ length (finish_text reading figures.now) }
    ensures out_after { out.new ≡ room_with (finish_text reading figures.now) }
{
    match year::finish(reading, figures, out) {
        Told::Text(length) => length,
        Told::Refused(n) => line::put_refused(out, n),
    }
}
