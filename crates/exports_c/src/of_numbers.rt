// The functions of the crate `numbers`.
ghost use Rattle.std.specs.Prelude.{◌≡◌};
ghost use Rattle.std.specs.Float.{binary32, binary64};
ghost use Rattle.std.specs.Float.Ieee.{lt};
ghost use Rattle.std.specs.Float.Ieee.Scale.{finite};
ghost use Rattle.numbers.specs.Log.{ln_said};
ghost use Rattle.order.specs.Order.{clamp, larger, abs, negative, total_less};
ghost use Rattle.numbers.specs.Root.{sqrt_of, sqrt_said};
ghost use Rattle.numbers.specs.Values.{narrow};
ghost use Rattle.exports.specs.Answers.{code, left};

// The natural logarithm of v; refused by 10.
#[unsafe(no_mangle)]
pub extern "C" fn hullathan_ln(v: f32, out: &mut f32) -> u8
    ensures value { result ≡ code (ln_said v) }
    ensures out_after { out.new ≡ left (ln_said v) out.old }
{
    exports::of_numbers::hullathan_ln(v, out)
}

// The square root of an f32; refused by 11.
#[unsafe(no_mangle)]
pub extern "C" fn hullathan_sqrt32(v: f32, out: &mut f32) -> u8
    ensures value { result ≡ code (sqrt_said binary32 v) }
    ensures out_after { out.new ≡ left (sqrt_said binary32 v) out.old }
{
    exports::of_numbers::hullathan_sqrt32(v, out)
}

// The square root of an f64; refused by 11.
#[unsafe(no_mangle)]
pub extern "C" fn hullathan_sqrt64(v: f64, out: &mut f64) -> u8
    ensures value { result ≡ code (sqrt_said binary64 v) }
    ensures out_after { out.new ≡ left (sqrt_said binary64 v) out.old }
{
    exports::of_numbers::hullathan_sqrt64(v, out)
}

// The f32 nearest to v: nothing is refused.
#[unsafe(no_mangle)]
pub extern "C" fn hullathan_narrow(v: f64, out: &mut f32) -> u8
    ensures value { result ≡ 0 }
    ensures out_after { out.new ≡ narrow v }
{
    exports::of_numbers::hullathan_narrow(v, out)
}

// Rust's `v.clamp(lo, hi)`.
#[unsafe(no_mangle)]
pub extern "C" fn hullathan_clamp32(v: f32, lo: f32, hi: f32, out: &mut f32) -> u8
    ensures value { result ≡ 0 }
    ensures out_after { out.new ≡ clamp lo hi v }
{
    exports::of_numbers::hullathan_clamp32(v, lo, hi, out)
}

// Rust's `a.max(b)`.
#[unsafe(no_mangle)]
pub extern "C" fn hullathan_max32(a: f32, b: f32, out: &mut f32) -> u8
    ensures value { result ≡ 0 }
    ensures out_after { out.new ≡ larger a b }
{
    exports::of_numbers::hullathan_max32(a, b, out)
}

// Rust's `v.abs()` of an f32.
#[unsafe(no_mangle)]
pub extern "C" fn hullathan_abs32(v: f32, out: &mut f32) -> u8
    ensures value { result ≡ 0 }
    ensures out_after { out.new ≡ abs v }
{
    exports::of_numbers::hullathan_abs32(v, out)
}

// Rust's `v.abs()` of an f64.
#[unsafe(no_mangle)]
pub extern "C" fn hullathan_abs64(v: f64, out: &mut f64) -> u8
    ensures value { result ≡ 0 }
    ensures out_after { out.new ≡ abs v }
{
    exports::of_numbers::hullathan_abs64(v, out)
}

// Rust's `v.is_finite()`.
#[unsafe(no_mangle)]
pub extern "C" fn hullathan_is_finite32(v: f32, out: &mut bool) -> u8
    ensures value { result ≡ 0 }
    ensures out_after { out.new ≡ finite v }
{
    exports::of_numbers::hullathan_is_finite32(v, out)
}

// Whether a comes before b in Rust's total order.
#[unsafe(no_mangle)]
pub extern "C" fn hullathan_total_less32(a: f32, b: f32, out: &mut bool) -> u8
    ensures value { result ≡ 0 }
    ensures out_after { out.new ≡ total_less a b }
{
    exports::of_numbers::hullathan_total_less32(a, b, out)
}

// Whether the sign of v is minus.
#[unsafe(no_mangle)]
pub extern "C" fn hullathan_negative32(v: f32, out: &mut bool) -> u8
    ensures value { result ≡ 0 }
    ensures out_after { out.new ≡ negative v }
{
    exports::of_numbers::hullathan_negative32(v, out)
}

// Rust's `v.sqrt()` of an f32, on every value: what the layers above take.
#[unsafe(no_mangle)]
pub extern "C" fn hullathan_root32(v: f32, out: &mut f32) -> u8
    ensures value { result ≡ 0 }
    ensures out_after { out.new ≡ sqrt_of binary32 v }
{
    exports::of_numbers::hullathan_root32(v, out)
}

// Rust's `v.sqrt()` of an f64, on every value.
#[unsafe(no_mangle)]
pub extern "C" fn hullathan_root64(v: f64, out: &mut f64) -> u8
    ensures value { result ≡ 0 }
    ensures out_after { out.new ≡ sqrt_of binary64 v }
{
    exports::of_numbers::hullathan_root64(v, out)
}

// Rust's `x < v.sqrt()`, on every value.
#[unsafe(no_mangle)]
pub extern "C" fn hullathan_below_root(x: f32, v: f32, out: &mut bool) -> u8
    ensures value { result ≡ 0 }
    ensures out_after { out.new ≡ lt x (sqrt_of binary32 v) }
{
    exports::of_numbers::hullathan_below_root(x, v, out)
}
