// The few things that the Rust asks of an f64 (`is_finite`, `max`, `min`, casts of counts), and a number read from bytes.
// What each answers at NaN, infinity and minus zero is what rules::specs::Numbers says.
#![tactic(auto)]

ghost use Rattle.std.specs.Prelude.{◌≡◌, ◌+◌, ◌≤◌, length, take, drop};
ghost use Rattle.std.specs.Float.{binary64};
ghost use Rattle.std.specs.Float.Ieee.{of_bits};
ghost use Rattle.std.specs.Float.Ieee.Scale.{finite};
ghost use Rattle.rules.specs.Numbers as Rules;
ghost use Rattle.number.specs.Bytes.{le_number};

use std::num::f64_from_bits_with_nan;

// The Rust's `x.is_finite()`.
pub fn is_finite(x: f64) -> bool
    ensures { result ≡ finite x }
{
    x.is_finite()
}

// The Rust's `a.max(b)`. A NaN on the left gives b, as in the Rust; so does minus zero beside zero.
// Kept: std's `max` leaves open which of two zeros it answers (its clause `value`), and `Rules.larger` says b.
pub fn larger(a: f64, b: f64) -> f64
    ensures { result ≡ Rules.larger a b }
{
    if b < a { a } else { b }
}

// The Rust's `a.min(b)`.
// Kept: std's `min` leaves open which of two zeros it answers, and `Rules.smaller` says a.
pub fn smaller(a: f64, b: f64) -> f64
    ensures { result ≡ Rules.smaller a b }
{
    if b < a { b } else { a }
}

// Minus zero read as zero (document 01's own).
pub fn plus_zero(x: f64) -> f64
    ensures { result ≡ Rules.plus x }
{
    if x == 0.0 { 0.0 } else { x }
}

// The Rust's `x.is_finite() && x >= 0.0`: a total or a minimum.
pub fn minimum_ok(x: f64) -> bool
    ensures { result ≡ Rules.minimum_ok x }
{
    is_finite(x) && 0.0 <= x
}

// The Rust's `x.is_finite() && x > 0.0`: a share.
pub fn share_ok(x: f64) -> bool
    ensures { result ≡ Rules.share_ok x }
{
    is_finite(x) && 0.0 < x
}

// The Rust's `n as f64`, for a count that an f64 holds whole.
pub fn whole(n: usize) -> f64
    requires { n ≤ 9007199254740992 }
    ensures { result ≡ Rules.whole n }
{
    n as f64
}

// The number that n bytes at a place spell, the least first: what is missing of eight are zeros.
pub fn little(b: &[u8], at: usize, n: usize) -> u64
    requires { (n ≤ 8) × (at + n ≤ length b.now) }
    ensures { result ≡ le_number (take n (drop at b.now)) }
{
    let mut bytes = [0u8; 8];
    bytes[..n].copy_from_slice(&b[at..at + n]);
    u64::from_le_bytes(bytes)
}

// The Rust's `u64::from_le_bytes` of eight bytes at a place.
pub fn word(b: &[u8], at: usize) -> u64
    requires { at + 8 ≤ length b.now }
    ensures { result ≡ le_number (take 8 (drop at b.now)) }
{
    little(b, at, 8)
}

// The Rust's `f64::from_bits`, for every pattern: any NaN's becomes the one NaN.
pub fn decode(n: u64) -> f64
    ensures { result ≡ of_bits binary64 n }
{
    f64_from_bits_with_nan(n)
}
