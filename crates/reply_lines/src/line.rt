// The lines, each a word with its fields (docs/RULES.md, 15.1 to 15.5).
ghost use Rattle.texts.specs.Room.{PutText};
ghost use Rattle.reply_lines.specs.Lines.{ok_line, path_line, move_line, wait_line, refused_line};

use texts::{numerals, room};

pub fn put_ok(out: &mut [u8], hints: u64, times: u64, sweeps: u64, paths: u64) -> usize
    ensures { PutText (ok_line hints times sweeps paths) out.old 0 out.new result }
{
    let mut at = room::put_word(out, 0, b"ok");
    at = numerals::put_count(out, at, hints);
    at = numerals::put_count(out, at, times);
    at = numerals::put_count(out, at, sweeps);
    at = numerals::put_count(out, at, paths);
    room::put_byte(out, at, b'\n')
}

pub fn put_path(out: &mut [u8], at: usize, arrival: u64, pops: u64, hold: u64) -> usize
    ensures { PutText (path_line arrival pops hold) out.old at out.new result }
{
    let mut next = room::put_word(out, at, b"path");
    next = numerals::put_time(out, next, arrival);
    next = numerals::put_count(out, next, pops);
    next = numerals::put_time(out, next, hold);
    room::put_byte(out, next, b'\n')
}

pub fn put_move(out: &mut [u8], at: usize, time: u64, x: u64, y: u64) -> usize
    ensures { PutText (move_line time x y) out.old at out.new result }
{
    let mut next = room::put_word(out, at, b"move");
    next = numerals::put_time(out, next, time);
    next = numerals::put_bits(out, next, x);
    next = numerals::put_bits(out, next, y);
    room::put_byte(out, next, b'\n')
}

pub fn put_wait(out: &mut [u8], at: usize, obstacle: u64, end: u64) -> usize
    ensures { PutText (wait_line obstacle end) out.old at out.new result }
{
    let mut next = room::put_word(out, at, b"wait");
    next = numerals::put_count(out, next, obstacle);
    next = numerals::put_time(out, next, end);
    room::put_byte(out, next, b'\n')
}

pub fn put_refused(out: &mut [u8], number: u64) -> usize
    ensures { PutText (refused_line number) out.old 0 out.new result }
{
    let at = room::put_word(out, 0, b"refused");
    let end = numerals::put_count(out, at, number);
    room::put_byte(out, end, b'\n')
}
