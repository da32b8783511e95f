// Rust's casts between floats and whole numbers, the rounding of an f32, and floor and ceil of a quotient in whole numbers.
// Each statement is an equation with what IEEE 754 says (std.specs.Float.Ieee).
#![tactic(auto)]

ghost use Rattle.std.specs.Prelude.{◌≡◌, not, T, ◌||◌, ◌^◌, ◌≤◌, ◌<◌, pos};
ghost use Rattle.std.specs.Float.{binary32, binary64};
ghost use Rattle.std.specs.Float.Ieee.{of_int, div, of_bits, nan_bits, to_signed, to_unsigned};
ghost use Rattle.floats.specs.Rounding.{abs_f, floor_f, ceil_of, round_f};
ghost use Rattle.floats.specs.Losses.{lost_in};

use std::num::{saturating_f64_to_i32, saturating_f64_to_i64, saturating_f64_to_u64};

// The weight of the exponent in an f32's bits, and of a leading 1 before its 23 digits: 2^23.
const LEAD: u64 = 8388608;

// The weight of its sign: 2^31.
const SIGN: u64 = 2147483648;

// Does n lose anything as f64, so that it is another number there? What is left of it without the zeros at its end has to be
// below 2^53.
pub fn loses(n: i64) -> bool
    ensures { result ≡ lost_in n }
{
    let size = n.unsigned_abs();
    if size < 9007199254740992 {
        return false;
    }
    9007199254740992 <= size >> size.trailing_zeros()
}

// n as f64: the nearest, a tie to the even one. Its upper half, times 2^32, and its lower half are floats, so that only their
// sum rounds. std's nearest_i64_to_f64 was tried, and takes 1.5 ns longer in ordered_map: it branches on the sign.
pub fn from_i64(n: i64) -> f64
    ensures { result ≡ of_int binary64 n }
{
    let upper = n >> 32;
    let lower = n & 4294967295;
    upper as f64 * 4294967296.0 + lower as f64
}

// Does either lose anything? Asked apart where both end with ten zeros, as whole days in nanoseconds do, or are small: by `loses`
// alone a pixel of whole days takes 12 instructions more than its 105, and one of small numbers 4; else t tells most often.
pub fn either_loses(o: i64, t: i64) -> bool
    ensures { result ≡ lost_in o || lost_in t }
{
    if (o & 1023 == 0) & (t & 1023 == 0) {
        return false;
    }
    if ((0 <= o) & (o < 9007199254740992)) & ((0 <= t) & (t < 9007199254740992)) {
        return false;
    }
    loses(t) || loses(o)
}

// x as i32: cut toward zero, an end of the range beyond it, and 0 for a NaN.
pub fn to_i32(x: f64) -> i32
    ensures { result ≡ to_signed 31 x }
{
    saturating_f64_to_i32(x)
}

// x as i64, in the same way.
pub fn to_i64(x: f64) -> i64
    ensures { result ≡ to_signed 63 x }
{
    saturating_f64_to_i64(x)
}

// x as usize, which has 64 bits: in the same way, and 0 below 0. Document 01 names this cast too; the Rust makes it of
// floors and ceilings of quotients alone, which the last two functions answer.
pub fn to_usize(x: f64) -> u64
    ensures { result ≡ to_unsigned 64 x }
{
    saturating_f64_to_u64(x)
}

// The whole number nearest to the f32 that has these bits, a half up, without its sign; the largest u64 from 2^64 on.
// The bits are a sign, an exponent e and 23 digits; with a leading 1 these are d, and the float is d * 2^(e - 150). One
// digit below 1 is kept, 1 is added there, and it is dropped.
fn round_of(bits: u64) -> u64
    requires { T (not (nan_bits binary32 bits)) }
    ensures { result ≡ to_unsigned 64 (abs_f (round_f binary32 (of_bits binary32 bits))) }
{
    let e = bits % SIGN / LEAD;
    let d = bits % LEAD + LEAD;
    if e < 126 {
        return 0;
    }
    if e < 150 {
        return ((d >> (149 - e)) + 1) / 2;
    }
    if e < 191 {
        return d << (e - 150);
    }
    18446744073709551615
}

// x.round() as i32: to the nearest whole number, a half away from zero, an end of the range beyond it, and 0 for a NaN. By
// std's round, ordered_segment_map takes a third longer.
pub fn round_to_i32(x: f32) -> i32
    ensures { result ≡ to_signed 31 (round_f binary32 x) }
{
    if x.is_nan() {
        return 0;
    }
    let bits = u64::from(x.to_bits());
    let size = round_of(bits);
    if SIGN <= bits {
        return -(size.min(2147483648) as i64) as i32;
    }
    size.min(2147483647) as i32
}

// The bounds of n and d stay clauses: callers hand products and differences made in the call, and a type would be opened at once
// by the division.

// (n as f64 / d as f64).floor() as usize.
#[tactic(auto, using(crate::proofs::Quotients::ratio_floor))]
pub fn floor_quotient(n: u64, d: u64) -> u64
    requires { (n < 2 ^ 53) × (0 < d) × (d ≤ 2 ^ 53) }
    ensures { result ≡ to_unsigned 64
        (floor_f binary64 (div binary64 (of_int binary64 (pos n)) (of_int binary64 (pos d)))) }
{
    n / d
}

// (n as f64 / d as f64).ceil() as usize.
pub fn ceil_quotient(n: u64, d: u64) -> u64
    requires { (n < 2 ^ 53) × (0 < d) × (d ≤ 2 ^ 53) }
    ensures { result ≡ ceil_of n d }
{
    n.div_ceil(d)
}
