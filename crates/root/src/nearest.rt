// The square root of a double, rounded to the nearest (docs/RULES.md, 6.5): worked out from its bits, by a guess that is tried, and
// where that fails one binary digit a turn.
ghost use Rattle.std.specs.Prelude.{◌≡◌, ◌+◌, ◌*◌, ◌/◌, ◌^◌, ◌≤◌, ◌<◌};
ghost use Rattle.std.specs.Float.{binary64};
ghost use Rattle.std.specs.Float.Ieee.{of_bits};
ghost use Rattle.refusals.specs.declared.Refusal.TheVariants.{Number};
ghost use Rattle.root.specs.Digits.{whole_root, Spells, root_pattern};
ghost use Rattle.root.specs.Root.{least_units, IsRoot, root_of};

use crate::{guess, trial};
use refusals::Refusal;

// There is no root: refusal 1.
#[derive(Clone, Copy, PartialEq, Eq)]
pub struct NoRoot;

impl From<NoRoot> for Refusal {
    ghost from_gives = { λ _ e. e ≡ Number };

    fn from(_e: NoRoot) -> Refusal {
        Refusal::Number
    }
}

// 2^52, the first of the 53 digits that a double keeps.
const FIRST_DIGIT: u64 = 0x10_0000_0000_0000;

// The bits of 1/2: with the digits m added, of which the first adds one to the exponent, they are those of m / 2^52.
const HALF: u64 = 0x3fe0_0000_0000_0000;

// The bits of infinity, above which there are NaNs and whatever has its sign set.
const INFINITY: u64 = 0x7ff0_0000_0000_0000;

// The bits of -0.
const MINUS_ZERO: u64 = 0x8000_0000_0000_0000;

// The whole part of the root of a * 2^54. Each turn brings down two digits, from `rest` and then zeros, and finds one of the
// root: r * r + over is what came down so far, and over is at most 2 * r.
fn whole_root(a: u64) -> u64
    requires { a < 2 ^ 54 }
    ensures { result ≡ whole_root 54 (a * 2 ^ 54) }
{
    let mut rest = a;
    let mut r: u64 = 0;
    let mut over: u64 = 0;
    for _ in 0..54_u64 {
        over = over * 4 + rest / FIRST_DIGIT;
        rest = rest % FIRST_DIGIT * 4;
        r *= 2;
        if r * 2 < over {
            over -= r * 2 + 1;
            r += 1;
        }
    }
    r
}

// A number as 53 digits, of which the first stands at 2^j.
#[derive(Clone, Copy)]
struct Digits {
    m: u64,
    j: u64,
}

// The digits of a number that has fewer than 53, moved up until there are as many.
fn moved_up(t: u64) -> Digits
    requires { (0 < t) × (t < 2 ^ 52) }
    ensures { Spells t result.m result.j × (result.j ≤ 52) }
{
    let mut m = t;
    let mut j: u64 = 52;
    while m < FIRST_DIGIT {
        m *= 2;
        j -= 1;
    }
    Digits { m, j }
}

// The digits of the finite double above zero that has the bits b, in units of the least such double.
fn digits_of(b: u64) -> Digits
    requires { (0 < b) × (b < 0x7ff0_0000_0000_0000) }
    ensures { Spells (least_units (of_bits binary64 b)) result.m result.j × (result.j ≤ 2097) }
{
    let exponent = b / FIRST_DIGIT;
    let kept = b % FIRST_DIGIT;
    if exponent == 0 {
        return moved_up(kept);
    }
    Digits {
        m: kept + FIRST_DIGIT,
        j: exponent + 51,
    }
}

// The 53 digits of the root of a * 2^52, rounded to the nearest, with g for a guess at them.
#[tactic(auto, using(crate::proofs::WholeRoot::whole_small))]
fn root_digits(a: u64, g: u64) -> u64
    requires { (a < 2 ^ 54) × (g < 2 ^ 53) }
    ensures { result ≡ (whole_root 54 (a * 2 ^ 54) + 1) / 2 }
{
    match trial::nearest_to(a, g) {
        Some(t) => t,
        None => (whole_root(a) + 1) / 2,
    }
}

// The bits of the root, from the bits of a finite double above zero.
#[tactic(auto, using(crate::proofs::WholeRoot::whole_small))]
fn root_bits(b: u64) -> u64
    requires { (0 < b) × (b < 0x7ff0_0000_0000_0000) }
    ensures { result ≡ root_pattern (least_units (of_bits binary64 b)) }
{
    let Digits { m, j } = digits_of(b);
    let a = if j % 2 == 1 { m * 2 } else { m };
    let g = guess::digits(HALF + m + j % 2 * FIRST_DIGIT);
    (j / 2 + 485) * FIRST_DIGIT + root_digits(a, g)
}

// The root of x. A zero is its own; NaN, an infinity and what is below zero are refused.
pub fn square_root(x: f64) -> Result<f64, NoRoot>
    ensures rounded { IsRoot x result }
    ensures worked_out { result ≡ root_of x }
{
    if x != x {
        return Err(NoRoot);
    }
    let b = f64::to_bits(x);
    if b == 0 {
        return Ok(x);
    }
    if b == MINUS_ZERO {
        return Ok(x);
    }
    if INFINITY <= b {
        return Err(NoRoot);
    }
    Ok(f64::from_bits(root_bits(b)))
}
