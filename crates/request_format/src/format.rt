// Which streams are requests (docs/RULES.md, 3.5, 3.6 and 14.1 to 14.17).
ghost use Rattle.std.specs.Prelude.{◌≡◌, ◌≤◌};
ghost use Rattle.request_format.specs.Format.{obstacles_at, is_filled, is_request};
ghost use Rattle.request_format.specs.Measured.{extent_of};

use crate::bits;

// How many bits a request of at most 32 obstacles takes, or none where its counts are outside the table.
#[tactic(auto, using(crate::proofs::Extents::counting))]
fn measure(s: &[u8], obstacles: usize) -> Option<usize>
    requires { obstacles ≤ 32 }
    ensures { result ≡ extent_of (obstacles_at s.now 510 obstacles) }
{
    let mut at = 510;
    let mut legs = 0;
    for _o in 0..obstacles {
        let points = bits::number_at(s, at + 192, 9) as usize;
        let more = points.saturating_sub(1);
        if points == 1 {
            return None;
        }
        if 256 - legs < more {
            return None;
        }
        legs += more;
        at += 201 + 178 * points;
    }
    Some(at)
}

// Whether a stream has as many bytes as so many bits take, and no bit set behind them.
#[tactic(auto, unfolding(crate::specs::Format::is_filled))]
fn is_filled(s: &[u8], bits: usize) -> bool
    requires { bits ≤ 100_000 }
    ensures { result ≡ is_filled s.now bits }
{
    if s.len() != (bits + 7) / 8 {
        return false;
    }
    bits::number_at(s, bits, 8 * s.len() - bits) == 0
}

#[tactic(auto, using(crate::proofs::Extents::told), unfolding(crate::specs::Format::is_request, crate::specs::Format::request_at))]
pub fn is_request(s: &[u8]) -> bool
    ensures { result ≡ is_request s.now }
{
    if bits::number_at(s, 0, 4) != 1 {
        return false;
    }
    let obstacles = bits::number_at(s, 4, 6) as usize;
    if 32 < obstacles {
        return false;
    }
    let Some(bits) = measure(s, obstacles) else {
        return false;
    };
    is_filled(s, bits)
}
