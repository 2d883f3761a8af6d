// Numbers in digits, with a space in front of each (docs/RULES.md, 15.3 and 15.7).
ghost use Rattle.std.specs.Prelude.{◌≡◌, ◌<◌};
ghost use Rattle.number_words.specs.Word.{signed_of};
ghost use Rattle.texts.specs.Room.{PutText};
ghost use Rattle.texts.specs.Numerals.{glyph, decimal_of, signed_text, hex_of, count_field, time_field, bits_field};

use crate::room;

// The byte of a digit below 16.
#[tactic(auto, unfolding(crate::specs::Numerals::glyph))]
fn glyph_of(d: u64) -> u8
    requires { d < 16 }
    ensures { result ≡ glyph d }
{
    if d < 10 {
        return b'0' + d as u8;
    }
    b'a' + (d - 10) as u8
}

// Puts a number in decimal.
fn put_decimal(out: &mut [u8], at: usize, n: u64) -> usize
    ensures { PutText (decimal_of n) out.old at out.new result }
{
    if n < 10 {
        return room::put_byte(out, at, glyph_of(n));
    }
    let next = put_decimal(out, at, n / 10);
    room::put_byte(out, next, glyph_of(n % 10))
}

// Puts the signed number of a word in decimal, with a minus sign in front where it is below zero.
fn put_signed(out: &mut [u8], at: usize, w: u64) -> usize
    ensures { PutText (signed_text (signed_of w)) out.old at out.new result }
{
    if w < 9223372036854775808 {
        return put_decimal(out, at, w);
    }
    let next = room::put_byte(out, at, b'-');
    put_decimal(out, next, 18446744073709551615 - w + 1)
}

// Puts the 16 hexadecimal digits of a word.
fn put_hex(out: &mut [u8], at: usize, w: u64) -> usize
    ensures { PutText (hex_of w) out.old at out.new result }
{
    let mut next = at;
    for k in (0..16u64).rev() {
        next = room::put_byte(out, next, glyph_of((w >> (4 * k)) % 16));
    }
    next
}

// Puts a count.
pub fn put_count(out: &mut [u8], at: usize, n: u64) -> usize
    ensures { PutText (count_field n) out.old at out.new result }
{
    let next = room::put_byte(out, at, b' ');
    put_decimal(out, next, n)
}

// Puts a time or a span, in nanoseconds.
pub fn put_time(out: &mut [u8], at: usize, w: u64) -> usize
    ensures { PutText (time_field w) out.old at out.new result }
{
    let next = room::put_byte(out, at, b' ');
    put_signed(out, next, w)
}

// Puts the bits of a double.
pub fn put_bits(out: &mut [u8], at: usize, w: u64) -> usize
    ensures { PutText (bits_field w) out.old at out.new result }
{
    let next = room::put_byte(out, at, b' ');
    put_hex(out, next, w)
}
