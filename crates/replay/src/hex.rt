// A word in a list: 16 lower-case hex digits.
ghost use Rattle.std.specs.Prelude.{◌≡◌};
ghost use Rattle.replay.specs.Hex.{digit_of, word_at};

// What a hex digit counts.
#[tactic(auto, unfolding(crate::specs::Hex::digit_of))]
fn digit(b: u8) -> Option<u64>
    ensures { result ≡ digit_of b }
{
    match b {
        b'0'..=b'9' => Some((b - b'0') as u64),
        b'a'..=b'f' => Some((b - b'a' + 10) as u64),
        _ => None,
    }
}

// The word whose digits start at `at`.
#[tactic(auto, unfolding(crate::specs::Hex::word_at))]
pub fn word_at(s: &[u8], at: usize) -> Option<u64>
    ensures { result ≡ word_at s.now at }
{
    let digits = s.get(at..)?.get(..16)?;
    let mut v = 0u64;
    for b in digits {
        v = v * 16 + digit(*b)?;
    }
    Some(v)
}
