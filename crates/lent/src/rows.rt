// An answer in rows of four words, put into a lent room one by one as far as it reaches.
ghost use Rattle.std.specs.Prelude.{◌≡◌, [], ◌∷◌, length};
ghost use Rattle.lent.specs.Rows.{with_row, has_room, Settled};

use crate::words;

// Puts a row at its place, where there is room for it.
#[tactic(auto, unfolding(crate::specs::Rows::with_row))]
pub fn put_row(out: &mut [u64], row: usize, a: u64, b: u64, c: u64, d: u64)
    ensures { out.new ≡ with_row out.old row (a ∷ (b ∷ (c ∷ (d ∷ [])))) }
{
    if row < out.len() / 4 {
        out[4 * row..4 * row + 4].copy_from_slice(&[a, b, c, d]);
    }
}

// Whether a room is long enough for so many rows.
#[tactic(auto, unfolding(crate::specs::Rows::has_room))]
pub fn has_room(out: &[u64], rows: usize) -> bool
    ensures { result ≡ has_room (length out.now) rows }
{
    rows <= out.len() / 4
}

// Hands over so many rows, which were put before: zero behind them, or 12 where the room is too small for them.
#[tactic(auto, unfolding(crate::specs::Rows::has_room, crate::specs::Outcome::wiped))]
pub fn settle(out: &mut [u64], rows: usize) -> u64
    ensures { Settled rows out.old out.new result }
{
    if !has_room(out, rows) {
        words::wipe_from(out, 0);
        return refusals::NO_ROOM;
    }
    words::wipe_from(out, 4 * rows);
    0
}
