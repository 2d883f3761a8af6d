// A text in a lent room: put piece by piece as far as the room reaches, then handed over (docs/RULES.md, 4.12, 4.14 and 4.15).
ghost use Rattle.std.specs.Prelude.{◌≡◌, ◌∷◌, []};
ghost use Rattle.lent.specs.Outcome.{Refuses};
ghost use Rattle.texts.specs.Room.{PutText, SettledText, Tells, told_number};

// How long a text is, or a refusal and its number.
#[derive(Clone, Copy)]
pub enum Told {
    Text(usize),
    Refused(u64),
}

// Puts a byte at its place and answers the place behind it, or the one past the room's end where it has no such place.
#[tactic(auto, using(crate::proofs::Putting::byte_told), unfolding(crate::specs::Room::with_bytes))]
pub fn put_byte(out: &mut [u8], at: usize, b: u8) -> usize
    ensures { PutText (b ∷ []) out.old at out.new result }
{
    if at < out.len() {
        out[at] = b;
        return at + 1;
    }
    out.len() + 1
}

// Puts a word byte by byte. An empty one answers `at`, or the place one past the room's end where `at` is further.
pub fn put_word(out: &mut [u8], at: usize, word: &[u8]) -> usize
    ensures { PutText word.now out.old at out.new result }
{
    let mut next = at.min(out.len() + 1);
    for b in word {
        next = put_byte(out, next, *b);
    }
    next
}

// Hands over a text that was put before and ends at `end`: zero behind it, or 12 where the room is too small.
pub fn settle(out: &mut [u8], end: usize) -> Told
    ensures { SettledText end out.old out.new result }
{
    if out.len() < end {
        out.fill(0);
        return Told::Refused(refusals::NO_ROOM);
    }
    out[end..].fill(0);
    Told::Text(end)
}

// Hands over a refusal: its number alone, and no byte of the room kept.
#[tactic(auto, unfolding(crate::specs::Room::told_of, lent::specs::Outcome::room_of))]
pub fn refuse(out: &mut [u8], number: u64) -> Told
    ensures { Tells (Refuses number) out.old out.new result }
{
    out.fill(0);
    Told::Refused(number)
}

// The number that is handed back for what is told: 0 for a text.
#[tactic(auto, unfolding(crate::specs::Room::told_number))]
pub fn told_number(told: Told) -> u64
    ensures { result ≡ told_number told }
{
    match told {
        Told::Text(_length) => 0,
        Told::Refused(n) => n,
    }
}
