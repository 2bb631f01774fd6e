// The logarithm and the roots as the layers above call them, which know what they hand in.
ghost use Rattle.std.specs.Prelude.{◌≡◌, ◌+◌, ◌*◌, ◌^◌, ◌<◌, ◌≤◌, not, T, is_nan};
ghost use Rattle.std.specs.Float.{binary32};
ghost use Rattle.std.specs.Float.Ieee.{lt, minus};
ghost use Rattle.std.specs.Float.Ieee.Positive.{positive};
ghost use Rattle.numbers.specs.Log.{ln_of, scaled};
ghost use Rattle.numbers.specs.Parts.{Begun};
ghost use Rattle.numbers.specs.Root.{sqrt_of};

use crate::log::two_digits;
use crate::root::{BinaryFloat, pattern_below};
use crate::rounding::{ratio32, take_apart32};

// Where a logarithm begins: the leading one brought to bit 31, and the exponent, 149 more than it is.
#[derive(Clone, Copy)]
pub(crate) struct Lead {
    pub y: u64,
    pub e: u64,
}

// Where the logarithm of a v that is finite and above zero begins: the leading zeros of its significand
// give shift and exponent.
pub(crate) fn lead_of(v: f32) -> Lead
    requires { T (positive v) }
    ensures { Begun v result.y result.e }
{
    let p = take_apart32(v);
    // 40 of 64 places for 24 digits, and more for a subnormal
    let z = p.sig.leading_zeros();
    Lead {
        y: p.sig << (z - 32),
        e: (p.j as u64) + 63 - z as u64,
    }
}

// The logarithm from the exponent and the digits.
pub(crate) fn log_from(e: u64, t: u64) -> f32
    requires { (e < 277) × (t < 2 ^ 24) }
    ensures { result ≡ scaled (minus (e * 2 ^ 24 + t) (149 * 2 ^ 24)) }
{
    let hi = e * 16777216 + t;
    // 149 * 2^24
    if 2499805184 <= hi {
        return ratio32(false, (hi - 2499805184) * 2977044472, 56);
    }
    ratio32(true, (2499805184 - hi) * 2977044472, 56)
}

// The natural logarithm of a v that is finite and above zero.
pub fn ln_of(v: f32) -> f32
    requires { T (positive v) }
    ensures { result ≡ ln_of v }
{
    let k = lead_of(v);
    // of one number twice: one text of the digits
    let t = two_digits(k.y, k.y);
    log_from(k.e, t.a)
}

// Two logarithms.
#[derive(Clone, Copy)]
pub struct Logs {
    pub a: f32,
    pub b: f32,
}

// The natural logarithms of two numbers that are finite and above zero.
pub fn ln_two(v: f32, w: f32) -> Logs
    requires { T (positive v) × T (positive w) }
    ensures { (result.a ≡ ln_of v) × (result.b ≡ ln_of w) }
{
    let k = lead_of(v);
    let m = lead_of(w);
    let t = two_digits(k.y, m.y);
    let a = log_from(k.e, t.a);
    let b = log_from(m.e, t.b);
    Logs { a, b }
}

// Whether x is below the root of a v that is finite and above zero, with no root taken where x is a normal f32.
fn below_positive(x: f32, v: f32) -> bool
    requires { T (not (is_nan x)) × T (positive v) }
    ensures { result ≡ lt x (sqrt_of binary32 v) }
{
    let c = x.to_bits();
    if 0x0080_0000 <= c {
        if c < 0x7f00_0000 {
            return pattern_below(c, v);
        }
    }
    x < v.root()
}

// Whether x is below the root of v: Rust's `x < v.sqrt()` on every value.
pub fn below_root(x: f32, v: f32) -> bool
    ensures { result ≡ lt x (sqrt_of binary32 v) }
{
    if 0.0 < x {
        if 0.0 < v {
            if v < f32::INFINITY {
                return below_positive(x, v);
            }
        }
    }
    x < v.root()
}
