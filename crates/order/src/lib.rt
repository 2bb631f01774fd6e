// The order of floats as Rust has it, on every value: what the library's methods ask of their caller, or leave open.
#![tactic(auto)]

ghost use Rattle.std.specs.Prelude.{◌≡◌};
ghost use Rattle.std.specs.Float.Ieee.Scale.{finite};
ghost use Rattle.order.specs.Order.{clamp, larger, negative, total_less};

use std::cmp::Ordering;

// v, or the limit that it is beyond: Rust's `v.clamp(lo, hi)`. The library's asks that lo is at most hi.
pub fn clamp32(v: f32, lo: f32, hi: f32) -> f32
    ensures { result ≡ clamp lo hi v }
{
    if v < lo {
        lo
    } else if hi < v {
        hi
    } else {
        v
    }
}

// The larger of two, and the other one where one is NaN: Rust's `a.max(b)`. The library's leaves open which zero it is.
pub fn max32(a: f32, b: f32) -> f32
    ensures { result ≡ larger a b }
{
    if a.is_nan() || a < b { b } else { a }
}

// Whether v is neither NaN nor infinite: Rust's `v.is_finite()`. The library's subtracts, which is invalid of infinity.
pub fn is_finite32(v: f32) -> bool
    ensures { result ≡ finite v }
{
    let top = f32::from_bits(0x7f80_0000);
    if -top < v { v < top } else { false }
}

// Whether the sign of v is minus; NaN has none. The library's `is_sign_negative` asks for a number.
pub fn negative32(v: f32) -> bool
    ensures { result ≡ negative v }
{
    !v.is_nan() && v.is_sign_negative()
}

// Whether a comes before b in Rust's total order, NaN last. The library's `total_cmp` asks for numbers.
pub fn total_less32(a: f32, b: f32) -> bool
    ensures { result ≡ total_less a b }
{
    !a.is_nan() && (b.is_nan() || a.total_cmp(&b) == Ordering::Less)
}
