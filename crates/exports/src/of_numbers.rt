// The functions of the crate `numbers`.
ghost use Rattle.std.specs.Prelude.{◌≡◌};
ghost use Rattle.std.specs.Float.{binary32, binary64};
ghost use Rattle.std.specs.Float.Ieee.{lt};
ghost use Rattle.std.specs.Float.Ieee.Scale.{finite};
ghost use Rattle.numbers.specs.Answers.{said_as};
ghost use Rattle.numbers.specs.Log.{ln_said};
ghost use Rattle.order.specs.Order.{clamp, larger, abs, negative, total_less};
ghost use Rattle.numbers.specs.Root.{sqrt_of, sqrt_said};
ghost use Rattle.numbers.specs.Values.{narrow};
ghost use Rattle.exports.specs.Answers.{code, left};

use numbers::root::BinaryFloat;
use refusals::Refusal;

// The number of a refusal; 0 for a value, which is left behind `out`.
fn handed<F: BinaryFloat>(answer: Result<F, Refusal>, out: &mut F) -> u8
    ensures value { result ≡ code (said_as F.float answer) }
    ensures out_after { F.float out.new ≡ left (said_as F.float answer) (F.float out.old) }
{
    match answer {
        Ok(x) => {
            *out = x;
            0
        }
        Err(refusal) => refusal.into(),
    }
}

// The natural logarithm of v; refused by 10.
pub fn hullathan_ln(v: f32, out: &mut f32) -> u8
    ensures value { result ≡ code (ln_said v) }
    ensures out_after { out.new ≡ left (ln_said v) out.old }
{
    handed(numbers::log::ln(v), out)
}

// The square root of an f32; refused by 11.
pub fn hullathan_sqrt32(v: f32, out: &mut f32) -> u8
    ensures value { result ≡ code (sqrt_said binary32 v) }
    ensures out_after { out.new ≡ left (sqrt_said binary32 v) out.old }
{
    handed(numbers::root::sqrt::<f32>(v), out)
}

// The square root of an f64; refused by 11.
pub fn hullathan_sqrt64(v: f64, out: &mut f64) -> u8
    ensures value { result ≡ code (sqrt_said binary64 v) }
    ensures out_after { out.new ≡ left (sqrt_said binary64 v) out.old }
{
    handed(numbers::root::sqrt::<f64>(v), out)
}

// The f32 nearest to v: nothing is refused.
pub fn hullathan_narrow(v: f64, out: &mut f32) -> u8
    ensures value { result ≡ 0 }
    ensures out_after { out.new ≡ narrow v }
{
    *out = numbers::rounding::narrow(v);
    0
}

// Rust's `v.clamp(lo, hi)`.
pub fn hullathan_clamp32(v: f32, lo: f32, hi: f32, out: &mut f32) -> u8
    ensures value { result ≡ 0 }
    ensures out_after { out.new ≡ clamp lo hi v }
{
    *out = order::clamp32(v, lo, hi);
    0
}

// Rust's `a.max(b)`.
pub fn hullathan_max32(a: f32, b: f32, out: &mut f32) -> u8
    ensures value { result ≡ 0 }
    ensures out_after { out.new ≡ larger a b }
{
    *out = order::max32(a, b);
    0
}

// Rust's `v.abs()` of an f32.
pub fn hullathan_abs32(v: f32, out: &mut f32) -> u8
    ensures value { result ≡ 0 }
    ensures out_after { out.new ≡ abs v }
{
    *out = v.abs();
    0
}

// Rust's `v.abs()` of an f64.
pub fn hullathan_abs64(v: f64, out: &mut f64) -> u8
    ensures value { result ≡ 0 }
    ensures out_after { out.new ≡ abs v }
{
    *out = v.abs();
    0
}

// Rust's `v.is_finite()`.
pub fn hullathan_is_finite32(v: f32, out: &mut bool) -> u8
    ensures value { result ≡ 0 }
    ensures out_after { out.new ≡ finite v }
{
    *out = order::is_finite32(v);
    0
}

// Whether a comes before b in Rust's total order.
pub fn hullathan_total_less32(a: f32, b: f32, out: &mut bool) -> u8
    ensures value { result ≡ 0 }
    ensures out_after { out.new ≡ total_less a b }
{
    *out = order::total_less32(a, b);
    0
}

// Whether the sign of v is minus.
pub fn hullathan_negative32(v: f32, out: &mut bool) -> u8
    ensures value { result ≡ 0 }
    ensures out_after { out.new ≡ negative v }
{
    *out = order::negative32(v);
    0
}

// Rust's `v.sqrt()` of an f32, on every value: what the layers above take.
pub fn hullathan_root32(v: f32, out: &mut f32) -> u8
    ensures value { result ≡ 0 }
    ensures out_after { out.new ≡ sqrt_of binary32 v }
{
    *out = v.root();
    0
}

// Rust's `v.sqrt()` of an f64, on every value.
pub fn hullathan_root64(v: f64, out: &mut f64) -> u8
    ensures value { result ≡ 0 }
    ensures out_after { out.new ≡ sqrt_of binary64 v }
{
    *out = v.root();
    0
}

// Rust's `x < v.sqrt()`, on every value.
pub fn hullathan_below_root(x: f32, v: f32, out: &mut bool) -> u8
    ensures value { result ≡ 0 }
    ensures out_after { out.new ≡ lt x (sqrt_of binary32 v) }
{
    *out = numbers::inner::below_root(x, v);
    0
}
