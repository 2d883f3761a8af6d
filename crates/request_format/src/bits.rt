// The bits of a stream of bytes, the most significant first (docs/RULES.md, 14.13).
ghost use Rattle.std.specs.Prelude.{◌≡◌, ◌+◌, ◌≤◌, min};
ghost use Rattle.request_format.specs.Bits.{bit_at, number_at};

// Bit k of those from `at` on. Bytes are counted from that of `at`, since `at + k` may not fit a word. Past the end
// every bit is 0.
#[tactic(auto, using(crate::proofs::Digits::bits_told))]
fn bit_at(s: &[u8], at: usize, k: usize) -> u64
    requires { k ≤ 64 }
    ensures { result ≡ bit_at s.now (at + k) }
{
    let bit = at % 8 + k;
    let byte = at / 8 + bit / 8;
    if byte < s.len() {
        return (s[byte] >> (7 - bit % 8)) as u64 % 2;
    }
    0
}

// The number of the n bits from `at` on, or of the first 64 where n is more.
#[tactic(auto, using(crate::proofs::Digits::numbers_told), unfolding(crate::specs::Bits::number_at))]
pub fn number_at(s: &[u8], at: usize, n: usize) -> u64
    ensures { result ≡ number_at s.now at (min n 64) }
{
    let mut v = 0;
    for k in 0..n.min(64) {
        v = 2 * v + bit_at(s, at, k);
    }
    v
}
