// A guess at the digits of a root, by plain float operations. Nothing rests on it: `trial` tells whether it is right.
ghost use Rattle.std.specs.Prelude.{◌^◌, ◌<◌};

// 2^52, the least number of 53 digits.
const FIRST_DIGIT: u64 = 0x10_0000_0000_0000;

// The bits of 1 and of 2, between which the root is.
const ONE: u64 = 0x3ff0_0000_0000_0000;

const TWO: u64 = 0x4000_0000_0000_0000;

// The bits of a double above zero grow about as its logarithm does. So those of 1 / root x are about one and a half times those of
// 1, less half of those of x; with a little less than that the largest error is smaller.
const RECIPROCAL: u64 = 0x5fe6_eb50_c7b5_37a9;

// The 53 digits of the root of the double x that has the bits p, if x is from 1 up to 4. Each step takes y nearer to 1 / root x,
// and so s, which is x * y, to root x. With d = 1 - s * y that is s / root (1 - d), of which three terms are taken. In the first
// step 1.5008789, for 1.5, makes the largest error smaller.
pub(crate) fn digits(p: u64) -> u64
    requires { p < 0x7ff0_0000_0000_0000 }
    ensures { result < 2 ^ 53 }
{
    let x = f64::from_bits(p);
    let half = 0.5 * x;
    let mut y = f64::from_bits(RECIPROCAL - p / 2);
    y = y * (1.5008789 - half * y * y);
    y = y * (1.5 - half * y * y);
    let s = x * y;
    let d = 1.0 - s * y;
    let r = s + s * d * (0.5 + 0.375 * d);
    if r != r {
        return FIRST_DIGIT;
    }
    let b = f64::to_bits(r);
    if b < ONE {
        return FIRST_DIGIT;
    }
    if TWO <= b {
        return FIRST_DIGIT;
    }
    b - ONE + FIRST_DIGIT
}
