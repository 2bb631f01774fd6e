// The logarithm of document 01, "Root, rounding, logarithm".
ghost use Rattle.std.specs.Prelude.{◌≡◌, ℕ, ◌+◌, ◌*◌, ◌^◌, ◌<◌, ◌≤◌};
ghost use Rattle.numbers.specs.Answers.{said};
ghost use Rattle.numbers.specs.Log.{digit, digits, ln_said, next};

use crate::inner::ln_of;
use refusals::Refusal;

// Where the squaring stands: the number, and the digits that it gave so far.
#[derive(Clone, Copy)]
pub(crate) struct Squaring {
    pub y: u64,
    pub t: u64,
}

// One square and one digit more.
pub(crate) fn one_digit(q: Squaring) -> Squaring
    requires { (2 ^ 31 ≤ q.y) × (q.y < 2 ^ 32) × (q.t < 2 ^ 24) }
    ensures { (result.y ≡ next q.y) × (result.t ≡ 2 * q.t + digit q.y) }
{
    let s = (q.y * q.y) >> 31;
    // 1 where s is at least 2^32
    let bit = s >> 32;
    Squaring {
        y: s >> bit,
        t: 2 * q.t + bit,
    }
}

// The digits of two logarithms.
#[derive(Clone, Copy)]
pub(crate) struct Digits {
    pub a: u64,
    pub b: u64,
}

// 24 binary digits of the logarithms of y / 2^31 and z / 2^31 to the base 2, by squaring: the steps of one do not wait
// for those of the other.
pub(crate) fn two_digits(y: u64, z: u64) -> Digits
    requires bound { (2 ^ 31 ≤ y) × (y < 2 ^ 32) }
    requires bound_2 { (2 ^ 31 ≤ z) × (z < 2 ^ 32) }
    ensures { ((result.a ≡ digits 24 y 0) × (result.a < 2 ^ 24)) × ((result.b ≡ digits 24 z 0) × (result.b < 2 ^ 24)) }
{
    let mut p = Squaring { y, t: 0 };
    let mut q = Squaring { y: z, t: 0 };
    for _ in 0..24u32 {
        p = one_digit(p);
        q = one_digit(q);
    }
    Digits { a: p.t, b: q.t }
}

// The natural logarithm of v, refused by 10.
pub fn ln(v: f32) -> Result<f32, Refusal>
    ensures { said result ≡ ln_said v }
{
    if 0.0 < v && v < f32::INFINITY {
        Ok(ln_of(v))
    } else {
        Err(Refusal::NoLogarithm)
    }
}
