// IEEE's square root of an f32 and of an f64 (document 01, "Root, rounding, logarithm"). It is certified in whole
// numbers, or worked out in them digit by digit; but an f32's is certified by a product of f64, an exact one.
ghost use Rattle.std.specs.Prelude.{
  ◌≡◌,
  ℕ,
  ◌+◌,
  ◌*◌,
  ◌/◌,
  ◌%◌,
  ◌^◌,
  ◌<◌,
  ◌≤◌,
  T,
  not,
  if◌then◌else◌,
  from_bits,
  nat_eq,
  Float,
};
ghost use Rattle.std.specs.Float.{Format, binary32, binary64};
ghost use Rattle.std.specs.Float.Ieee.{lt};
ghost use Rattle.std.specs.Float.Ieee.Positive.{positive};
ghost use Rattle.numbers.specs.Answers.{said_as};
ghost use Rattle.numbers.specs.Estimate.{
  newton_of,
  near_pattern,
  estimate32_of,
  certifies,
  estimate64_of,
  corrected_of,
  lifted_of,
};
ghost use Rattle.numbers.specs.Parts.{Extracted, Rest, Rooted};
ghost use Rattle.numbers.specs.Root.{rootless, sqrt_of, sqrt_said};

use crate::rounding::{nearest32, nearest64, take_apart};
use refusals::Refusal;

// A root's leading digits and what is left below them.
#[derive(Clone, Copy)]
pub(crate) struct Extract {
    pub q: u64,
    pub rest: u64,
}

// The root of m * 2^48 in 56 binary digits, by two digits of m at a time.
pub(crate) fn extract_root(m: u64) -> Extract
    ensures { Extracted m result }
{
    let mut left = m;
    let mut q: u64 = 0;
    let mut rest: u64 = 0;
    for _ in 0..56u32 {
        let next = 4 * rest + (left >> 62);
        left = left << 2;
        let c = 4 * q + 1;
        if c <= next {
            rest = next - c;
            q = 2 * q + 1;
        } else {
            rest = next;
            q = 2 * q;
        }
    }
    Extract { q, rest }
}

// x * 2^28 - y, or the largest number where that is below zero or x has more than 35 digits.
fn lifted(x: u64, y: u64) -> u64
    ensures { result ≡ lifted_of x y }
{
    if 0x8_0000_0000 <= x {
        return 0xffff_ffff_ffff_ffff;
    }
    if x << 28 < y {
        return 0xffff_ffff_ffff_ffff;
    }
    (x << 28) - y
}

// What is left of m * 2^48 below q * q, if q is its root's whole part; else the largest number.
fn rest_of(m: u64, q: u64) -> u64
    requires { q < 2 ^ 56 }
    ensures { Rest m q result }
{
    let a = q / 0x1000_0000;
    let b = q % 0x1000_0000;
    if m % 256 != 0 {
        return 0xffff_ffff_ffff_ffff;
    }
    if m / 256 < a * a {
        return 0xffff_ffff_ffff_ffff;
    }
    let d = lifted(m / 256 - a * a, 2 * (a * b));
    let rest = lifted(d, b * b);
    if 2 * q < rest {
        return 0xffff_ffff_ffff_ffff;
    }
    rest
}

// m * 2^48 - q * q, modulo 2^64, for an m that 256 divides.
fn residue(m: u64, q: u64) -> u64
    requires { q < 2 ^ 56 }
    ensures { (result + q * q) % 2 ^ 64 ≡ m / 256 * 2 ^ 56 % 2 ^ 64 }
{
    let a = q / 0x1000_0000;
    let b = q % 0x1000_0000;
    let d = std::num::wrapping_sub_u64(m / 256, a * a);
    let e = std::num::wrapping_sub_u64(d << 28, 2 * (a * b));
    std::num::wrapping_sub_u64(e << 28, b * b)
}

// One step of Newton's towards 1 / the root of 2 * h.
fn newton(y: f64, h: f64) -> f64
    ensures { result ≡ newton_of y h }
{
    y * (1.5 - h * y * y)
}

// The first 53 digits of a number near the root of m * 2^48, by float arithmetic.
fn estimate64(m: u64) -> u64
    ensures { (result ≡ estimate64_of m) × (2 ^ 55 ≤ result) × (result < 2 ^ 56) }
{
    let z = m.leading_zeros();
    if 1 < z {
        return 0x80_0000_0000_0000;
    }
    let p = ((1024 - z as u64) << 52) + ((m << z) >> 11) % 0x10_0000_0000_0000;
    let x = f64::from_bits(p);
    let h = 0.5 * x;
    let y = f64::from_bits(0x5fe6_eb50_c7b5_37a9 - p / 2);
    let r = x * newton(newton(newton(newton(y, h), h), h), h);
    if 1.0 <= r {
        return 8 * (0x10_0000_0000_0000 + r.to_bits() % 0x10_0000_0000_0000);
    }
    0x80_0000_0000_0000
}

// q, moved by one step of Newton's in whole numbers; r is its residue.
fn corrected64(q: u64, r: u64) -> u64
    requires { (2 ^ 55 ≤ q) × (q < 2 ^ 56) }
    ensures { result ≡ corrected_of q r }
{
    if r < 0x8000_0000_0000_0000 {
        return q + r / (2 * q);
    }
    q - 1 - (0xffff_ffff_ffff_ffff - r) / (2 * q)
}

// The root of m * 2^48 in 56 binary digits, and what is left: an estimate, if it is the root, and else digit by digit.
fn leading_root(m: u64) -> Extract
    ensures { Extracted m result }
{
    let q = estimate64(m);
    let near = corrected64(q, residue(m, q)) % 0x100_0000_0000_0000;
    let rest = rest_of(m, near);
    if rest == 0xffff_ffff_ffff_ffff {
        return extract_root(m);
    }
    Extract { q: near, rest }
}

// 0 for 0, and 1 for any other number.
pub(crate) fn any(n: u64) -> u64
    ensures { result ≡ (if nat_eq n 0 then 0 else 1) }
{
    if n == 0 { 0 } else { 1 }
}

// The root of sig * 2^j / 2^1074 is near w * 2^j / 2^1074.
#[derive(Clone, Copy)]
pub(crate) struct Root {
    pub w: u64,
    pub j: u16,
}

pub(crate) fn root_of(sig: u64, j: u16) -> Root
    requires { (0 < sig) × (sig < 2 ^ 53) × (j < 2046) }
    ensures { Rooted sig j result.w result.j }
{
    let z = sig.leading_zeros();
    let x = j as u32;
    // an even number of places is left
    let sh = z - (z + x) % 2;
    let d = leading_root(sig << sh);
    let w = 2 * d.q + any(d.rest);
    let half = (x + 1024 - sh) / 2;
    Root { w, j: half as u16 }
}

// The root of a v that is finite and above zero, rounded to the nearest f32, digit by digit.
fn digits_root32(v: f32) -> f32
    requires { T (positive v) }
    ensures { result ≡ sqrt_of binary32 v }
{
    let p = take_apart(v as f64);
    let r = root_of(p.sig, p.j);
    nearest32(false, r.w, r.j)
}

// Whether the f32 with the pattern c, a normal one, is below the rounded root of v.
// The middle between it and the next f32 has 25 digits and its square 50, of the 53 that an f64 has: the product is
// exact, and the test is that of the whole numbers, with no exponents to bring together.
pub(crate) fn pattern_below(c: u32, v: f32) -> bool
    requires { (2 ^ 23 ≤ c) × (c < 254 * 2 ^ 23) × T (positive v) }
    ensures { result ≡ lt (from_bits binary32 c) (sqrt_of binary32 v) }
{
    let middle = f64::from_bits(((c as u64) << 29) + 0x3800_0000_1000_0000);
    middle * middle < v as f64
}

// The pattern of the f32 nearest to r, where that is a normal number above zero, and else 0.
fn near_pattern(r: f64) -> u32
    ensures { result ≡ near_pattern r }
{
    if 0.0 < r {
        let b = r.to_bits();
        if 0x3810_0000_0000_0000 <= b {
            if b < 0x47e0_0000_0000_0000 {
                return ((b - 0x3800_0000_0000_0000 + 0x1000_0000) >> 29) as u32;
            }
        }
    }
    0
}

// A pattern near that of the root of v, by float arithmetic.
fn estimate32(v: f32) -> u32
    requires { T (positive v) }
    ensures { result ≡ estimate32_of v }
{
    let x = v as f64;
    let b = x.to_bits();
    if 0x7fe0_0000_0000_0000 <= b {
        return 0;
    }
    let h = 0.5 * x;
    let y = f64::from_bits(0x5fe6_eb50_c7b5_37a9 - b / 2);
    near_pattern(x * newton(newton(newton(y, h), h), h))
}

// Whether the pattern c is the root's: a normal number, not below the root of v, and the one before it is.
fn certified32(c: u32, v: f32) -> bool
    requires { T (positive v) }
    ensures { result ≡ certifies c v }
{
    if c <= 0x0080_0000 {
        return false;
    }
    if 0x7f00_0000 <= c {
        return false;
    }
    if pattern_below(c, v) {
        return false;
    }
    pattern_below(c - 1, v)
}

// The root of a v that is finite and above zero, rounded to the nearest f32: an estimate, if it is the root, and else
// digit by digit.
pub(crate) fn positive_root32(v: f32) -> f32
    requires { T (positive v) }
    ensures { result ≡ sqrt_of binary32 v }
{
    let c = estimate32(v);
    if certified32(c, v) {
        return f32::from_bits(c);
    }
    digits_root32(v)
}

// The root of a v that is finite and above zero, rounded to the nearest f64.
pub(crate) fn positive_root64(v: f64) -> f64
    requires { T (positive v) }
    ensures { result ≡ sqrt_of binary64 v }
{
    let p = take_apart(v);
    let r = root_of(p.sig, p.j);
    nearest64(false, r.w, r.j)
}

// A float of IEEE's: f32 and f64. The library's own trait for both has no law from which the root's would follow.
pub trait BinaryFloat: Copy {
    // The format, and a value as the definitions have it.
    ghost format: { Format };

    ghost float: { Self → Float };

    // Whether there is a root that is finite.
    fn has_root(self) -> bool
        ensures { result ≡ not (rootless (float self)) };

    // The root, as Rust's `sqrt` has it on every value: NaN has none, nor what is below zero.
    fn root(self) -> Self
        ensures { float result ≡ sqrt_of format (float self) };
}

impl BinaryFloat for f32 {
    ghost format = { binary32 };

    ghost float = { λ x. x };

    fn has_root(self) -> bool {
        0.0 <= self && self < f32::INFINITY
    }

    fn root(self) -> f32 {
        if 0.0 < self {
            if self < f32::INFINITY {
                return positive_root32(self);
            }
            return self;
        }
        if self == 0.0 {
            return self;
        }
        0.0 / 0.0
    }
}

impl BinaryFloat for f64 {
    ghost format = { binary64 };

    ghost float = { λ x. x };

    fn has_root(self) -> bool {
        0.0 <= self && self < f64::INFINITY
    }

    fn root(self) -> f64 {
        if 0.0 < self {
            if self < f64::INFINITY {
                return positive_root64(self);
            }
            return self;
        }
        if self == 0.0 {
            return self;
        }
        0.0 / 0.0
    }
}

// The square root of v, refused by 11.
pub fn sqrt<F: BinaryFloat>(v: F) -> Result<F, Refusal>
    ensures { said_as F.float result ≡ sqrt_said F.format (F.float v) }
{
    if v.has_root() {
        Ok(v.root())
    } else {
        Err(Refusal::NoRoot)
    }
}
