// Whether a guess at the digits of a root is right, told over whole numbers. One that is too high or too low by one is put right.
ghost use Rattle.std.specs.Prelude.{◌≡◌, ℕ, ◌+◌, ◌*◌, ◌^◌, ◌<◌};
ghost use Rattle.root.specs.Trial.{GuessTried};

// 2^52, the first of the 53 digits that a double keeps.
const FIRST_DIGIT: u64 = 0x10_0000_0000_0000;

// 2^26, at which the digits of a guess are cut in two: the product of any two parts fits a word.
const CUT: u64 = 0x400_0000;

// How far off a the upper digits of a guess's square may be for what is between to fit a word.
const REACH: u64 = 8;

// The whole number nearest to the root of n, where n - g * g is over - under: g, or next to it. None where it is none of the three.
#[tactic(auto, using(crate::proofs::Trials::tried))]
fn corrected(g: u64, over: u64, under: u64) -> Option<u64>
    requires { (g < 2 ^ 53) × (over < 2 ^ 57) × (under < 2 ^ 57) }
    ensures { (n : ℕ) → n + under ≡ g * g + over → GuessTried n g result }
{
    if over <= under + g {
        if under < over + g {
            return Some(g);
        }
        if under + 2 < over + 3 * g {
            return Some(g - 1);
        }
        return None;
    }
    if over <= under + 3 * g + 2 {
        return Some(g + 1);
    }
    None
}

// The whole number nearest to the root of a * 2^52, looked for at g and next to it; None where it is not there. The square of g is
// upper * 2^52 + lower.
#[tactic(auto, using(crate::proofs::Cut::parts))]
pub(crate) fn nearest_to(a: u64, g: u64) -> Option<u64>
    requires { (a < 2 ^ 54) × (g < 2 ^ 53) }
    ensures { GuessTried (a * 2 ^ 52) g result }
{
    let h = g / CUT;
    let l = g % CUT;
    let p = 2 * h * l;
    let upper = h * h + p / CUT;
    let lower = p % CUT * CUT + l * l;
    if a + REACH < upper {
        return None;
    }
    let e = a + REACH - upper;
    if 2 * REACH < e {
        return None;
    }
    corrected(g, e * FIRST_DIGIT, lower + REACH * FIRST_DIGIT)
}
