// How well a mark or a gap fits, and twins.
ghost use Rattle.std.specs.Prelude.{◌≡◌, T};
ghost use Rattle.std.specs.Float.Ieee.Positive.{positive};
ghost use Rattle.numbers.specs.Log.{ln_of};
ghost use Rattle.order.specs.Order.{larger};
ghost use Rattle.bank_model.specs.Constants.{milli};
ghost use Rattle.bank_model.specs.Scores.{log_of, fit, mark_fit, gap_fit, decayed, near, twins};

use crate::{LogPair, Measured};
use numbers::inner::{ln_of, ln_two};
use order::max32;
use ranges::Duration;

const FLOOR: f32 = -3.0;

const MINUS_HALF: f32 = -0.5;

const LN_3: f32 = 1.098_612_3;

const LN_7: f32 = 1.945_910_1;

// The logarithm of a centroid.
pub fn log_of(v: f32) -> f32
    requires { T (positive (larger v milli)) }
    ensures { result ≡ log_of v }
{
    ln_of(max32(v, 0.001))
}

// The logarithms of two centroids.
pub fn centroid_logs(lo: f32, hi: f32) -> LogPair
    requires { T (positive (larger lo milli)) × T (positive (larger hi milli)) }
    ensures { (result.lo ≡ log_of lo) × (result.hi ≡ log_of hi) }
{
    let k = ln_two(max32(lo, 0.001), max32(hi, 0.001));
    LogPair { lo: k.a, hi: k.b }
}

// A gap with its logarithm, and that of a unit.
#[derive(Clone, Copy)]
pub struct GapLogs {
    pub gap: Measured,
    pub unit: f32,
}

// The logarithms of a gap and of a unit.
pub fn gap_logs(d: Duration, unit: f32) -> GapLogs
    requires { T (positive (larger unit milli)) }
    ensures { (result.gap.dur.ms ≡ d.ms) × (result.unit ≡ log_of unit) }
{
    let k = ln_two(d.ms, max32(unit, 0.001));
    let gap = Measured { dur: d, ln: k.a };
    GapLogs { gap, unit: k.b }
}

// How well x fits the centre c.
pub fn fit(sigma: f32, x: f32, c: f32) -> f32
    ensures { result ≡ fit sigma x c }
{
    let z = (x - c) / sigma;
    MINUS_HALF * z * z
}

// How well a mark of logarithm x fits two centroids.
pub fn mark_ll(x: f32, c: LogPair) -> f32
    ensures { result ≡ mark_fit x c.lo c.hi }
{
    max32(max32(FLOOR, fit(0.25, x, c.lo)), fit(0.25, x, c.hi))
}

// How well a gap of logarithm x fits a unit of logarithm u.
pub fn gap_ll(x: f32, u: f32) -> f32
    ensures { result ≡ gap_fit x u }
{
    let one = max32(FLOOR, fit(0.35, x, u));
    let three = max32(one, fit(0.35, x, u + LN_3));
    max32(three, fit(0.35, x, u + LN_7))
}

// What a mark or a gap scores, added to the old score.
pub fn decayed(score: f32, l: f32) -> f32
    ensures { result ≡ decayed score l }
{
    0.90 * score + l
}

// Whether two logarithms lie within 0.25.
pub fn near(a: f32, b: f32) -> bool
    ensures { result ≡ near a b }
{
    (a - b).abs() < 0.25
}

// Whether both of two pairs of logarithms do.
pub fn duplicates(a: LogPair, b: LogPair) -> bool
    ensures { result ≡ twins a.lo a.hi b.lo b.hi }
{
    near(a.lo, b.lo) && near(a.hi, b.hi)
}
