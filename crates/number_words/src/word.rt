// Numbers as 64-bit words: a signed one by its bits, a double by its IEEE 754 pattern.
ghost use Rattle.std.specs.Prelude.{◌≡◌};
ghost use Rattle.std.specs.Float.Ieee;
ghost use Rattle.std.specs.Float.{binary64};
ghost use Rattle.number_words.specs.Word.{word_of, signed_of};

use std::num;

// The word of a signed number: the number itself, or 2^64 more where it is below zero.
pub fn of_signed(n: i64) -> u64
    ensures { result ≡ word_of n }
{
    n.cast_unsigned()
}

// The signed number of a word: the word itself, or 2^64 less from 2^63 on.
#[tactic(auto, unfolding(crate::specs::Word::signed_of))]
pub fn signed_of(w: u64) -> i64
    ensures { result ≡ signed_of w }
{
    w.cast_signed()
}

// The word of a double: its bit pattern, and for every NaN the one with the highest digit set.
pub fn of_double(x: f64) -> u64
    ensures { result ≡ Ieee.to_bits binary64 x }
{
    num::f64_to_bits_with_nan(x)
}

// The double of a bit pattern: the one NaN for each pattern of a NaN.
pub fn double_of(w: u64) -> f64
    ensures { result ≡ Ieee.of_bits binary64 w }
{
    num::f64_from_bits_with_nan(w)
}
