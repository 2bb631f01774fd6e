// Rounding to the nearest float, a tie to the even one, over whole numbers (document 01, "Root, rounding, logarithm").
ghost use Rattle.std.specs.Prelude.{◌≡◌, ℕ, ◌+◌, ◌-◌, ◌*◌, ◌^◌, ◌<◌, ◌≤◌, min, T, ◌⊎◌, if◌then◌else◌};
ghost use Rattle.std.specs.Float.Ieee.{round, units};
ghost use Rattle.std.specs.Float.{binary32, binary64};
ghost use Rattle.std.specs.Float.Ieee.Nearest.{closest};
ghost use Rattle.std.specs.Float.Ieee.Scale.{finite};
ghost use Rattle.numbers.specs.Parts.{Parted};
ghost use Rattle.numbers.specs.Values.{narrow};

// m / 2^sh to the nearest whole number, a tie to the even one.
pub(crate) fn rounded(m: u64, sh: u32) -> u64
    requires { 0 < sh }
    ensures { result ≡ closest m (2 ^ sh) }
{
    if sh > 64 {
        return 0;
    }
    if sh == 64 {
        return u64::from(0x8000_0000_0000_0000 < m);
    }
    // the quotient, what is left below it, and the half
    let q = m >> sh;
    let rest = m - (q << sh);
    let half = 1u64 << (sh - 1);
    if half < rest + q % 2 { q + 1 } else { q }
}

// The sign's bit of an f32.
pub(crate) fn sign32(neg: bool) -> u32
    ensures { result ≡ (if neg then 2 ^ 31 else 0) }
{
    if neg { 0x8000_0000 } else { 0 }
}

// q * 2^k of the smallest f32, where q has the leading digit of a normal number if any digit was dropped.
pub(crate) fn pack32(neg: bool, q: u64, k: u32) -> f32
    requires { (q ≤ 2 ^ 24) × ((k ≡ 0) ⊎ (2 ^ 23 ≤ q)) }
    ensures { result ≡ units binary32 neg q k }
{
    let b = ((k as u64) << 23) + q;
    // from the pattern of an infinity on it is one
    f32::from_bits(sign32(neg) + b.min(0x7f80_0000) as u32)
}

// The f32 nearest to m * 2^j / 2^1074, a tie to the even one, negative where `neg`.
pub(crate) fn nearest32(neg: bool, m: u64, j: u16) -> f32
    ensures { result ≡ round binary32 neg (m * 2 ^ j) (2 ^ 1074) }
{
    if m == 0 {
        return pack32(neg, 0, 0);
    }
    let x = j as u32;
    let z = m.leading_zeros();
    // a normal f32 keeps 24 digits of the 64 that m has with its leading one brought to bit 63
    if 885 + z <= x {
        return pack32(neg, rounded(m << z, 40), x - (885 + z));
    }
    // a smaller one is a whole number of the smallest
    if 925 <= x {
        pack32(neg, m << (x - 925), 0)
    } else {
        pack32(neg, rounded(m, 925 - x), 0)
    }
}

// The f32 nearest to num / 2^k, a tie to the even one, negative where `neg`.
pub(crate) fn ratio32(neg: bool, num: u64, k: u16) -> f32
    requires { k ≤ 1074 }
    ensures { result ≡ round binary32 neg num (2 ^ k) }
{
    nearest32(neg, num, 1074 - k)
}

// Whether v is neither a NaN nor an infinity.
pub(crate) fn finite64(v: f64) -> bool
    ensures { result ≡ finite v }
{
    let top = f64::from_bits(0x7ff0_0000_0000_0000);
    if -top < v { v < top } else { false }
}

// A finite f64 is sig * 2^j / 2^1074, and an f32 is sig * 2^j / 2^149, negative where `neg`.
#[derive(Clone, Copy)]
pub(crate) struct Parts {
    pub neg: bool,
    pub sig: u64,
    pub j: u16,
}

pub(crate) fn take_apart(v: f64) -> Parts
    requires { T (finite v) }
    ensures { Parted binary64 v result }
{
    let b = v.to_bits();
    let neg = b >= 0x8000_0000_0000_0000;
    let field = (b >> 52) & 0x7ff;
    let low = b & 0xf_ffff_ffff_ffff;
    if field == 0 {
        Parts {
            neg,
            sig: low,
            j: 0,
        }
    } else {
        Parts {
            neg,
            sig: low + 0x10_0000_0000_0000,
            j: (field - 1) as u16,
        }
    }
}

pub(crate) fn take_apart32(v: f32) -> Parts
    requires { T (finite v) }
    ensures { Parted binary32 v result }
{
    let b = v.to_bits();
    let neg = b >= 0x8000_0000;
    let field = (b >> 23) & 0xff;
    let low = (b & 0x7f_ffff) as u64;
    if field == 0 {
        Parts {
            neg,
            sig: low,
            j: 0,
        }
    } else {
        Parts {
            neg,
            sig: low + 0x80_0000,
            j: (field - 1) as u16,
        }
    }
}

// The f32 nearest to v, a tie to the even one. A NaN gives a NaN, and an infinity the infinity.
pub fn narrow(v: f64) -> f32
    ensures { result ≡ narrow v }
{
    if finite64(v) {
        let p = take_apart(v);
        return nearest32(p.neg, p.sig, p.j);
    }
    if v != v {
        return 0.0 / 0.0;
    }
    if v < 0.0 { -1.0 / 0.0 } else { 1.0 / 0.0 }
}

// The sign's bit of an f64.
pub(crate) fn sign64(neg: bool) -> u64
    ensures { result ≡ (if neg then 2 ^ 63 else 0) }
{
    if neg { 0x8000_0000_0000_0000 } else { 0 }
}

// q * 2^k of the smallest f64, where q has the leading digit of a normal number if any digit was dropped.
pub(crate) fn pack64(neg: bool, q: u64, k: u32) -> f64
    requires fact_1 { (q ≤ 2 ^ 53) × ((k ≡ 0) ⊎ (2 ^ 52 ≤ q)) }
    requires fact_2 { k < 2048 }
    ensures { result ≡ units binary64 neg q k }
{
    let b = ((k as u64) << 52) + q;
    // from the pattern of an infinity on it is one
    f64::from_bits(sign64(neg) + b.min(0x7ff0_0000_0000_0000))
}

// The f64 nearest to m * 2^j / 2^1074, a tie to the even one, negative where `neg`.
pub(crate) fn nearest64(neg: bool, m: u64, j: u16) -> f64
    requires { j < 2000 }
    ensures { result ≡ round binary64 neg (m * 2 ^ j) (2 ^ 1074) }
{
    if m == 0 {
        return pack64(neg, 0, 0);
    }
    let x = j as u32;
    let z = 64 - m.leading_zeros();
    let k = (z + x).saturating_sub(53);
    if k <= x {
        pack64(neg, m << (x - k), k)
    } else {
        pack64(neg, rounded(m, k - x), k)
    }
}
