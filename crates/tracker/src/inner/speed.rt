// The dit estimate, the speed and its average, and the constraints of a tracker.
ghost use Rattle.std.specs.Prelude.{◌≡◌};
ghost use Rattle.std.specs.Float.{binary32};
ghost use Rattle.std.specs.Float.Ieee.{div};
ghost use Rattle.ranges.specs.Limits.{paris};
ghost use Rattle.ranges.specs.Settings.{standard};
ghost use Rattle.pair.specs.Model.{held};
ghost use Rattle.tracker.specs.Model.{view};
ghost use Rattle.tracker.specs.Parts.{Counted};
ghost use Rattle.tracker.specs.Steps.{bias, estimate, dit_estimate, timed, averaged, bound, spoken};

use crate::SpeedTracker;
use order::clamp32;
use pair::inner::pair::constrain;

// Half the difference of dit and gap centroid, at most 0.35 dits either way.
pub(crate) fn bias(lo: f32, g: f32) -> f32
    ensures { result ≡ bias lo g }
{
    let cap = 0.35 * lo;
    clamp32(0.5 * (lo - g), -cap, cap)
}

// The dit lo, corrected by the gap centroid where there is one.
pub(crate) fn estimate(lo: f32, egap: Option<f32>) -> f32
    ensures { result ≡ estimate standard lo (held egap) }
{
    match egap {
        Some(g) => (lo - bias(lo, g)).clamp(20.0, 150.0),
        None => lo,
    }
}

// The dit estimate.
pub fn dit_estimate(t: SpeedTracker) -> f32
    ensures { result ≡ dit_estimate standard (view t) }
{
    estimate(t.pair.lo, t.mu_egap_ms)
}

// 1200 / dit estimate.
pub(crate) fn speed(lo: f32, egap: Option<f32>) -> f32
    ensures { result ≡ div binary32 paris (estimate standard lo (held egap)) }
{
    1200.0 / estimate(lo, egap)
}

// The speed average begins anew.
pub(crate) fn timed(t: SpeedTracker) -> SpeedTracker
    requires { Counted t }
    ensures { (view result ≡ timed standard (view t)) × Counted result }
{
    let mut u = t;
    u.wpm_ema = Some(speed(t.pair.lo, t.mu_egap_ms));
    u
}

// A first speed as it is, a later one averaged.
pub(crate) fn averaged(wpm: Option<f32>, raw: f32) -> f32
    ensures { result ≡ averaged (held wpm) raw }
{
    match wpm {
        Some(w) => w + 0.1 * (raw - w),
        None => raw,
    }
}

// The speed average takes the speed.
pub(crate) fn spoken(t: SpeedTracker) -> SpeedTracker
    requires { Counted t }
    ensures { (view result ≡ spoken standard (view t)) × Counted result }
{
    let raw = speed(t.pair.lo, t.mu_egap_ms);
    let mut u = t;
    u.wpm_ema = Some(averaged(t.wpm_ema, raw));
    u
}

// The constraints.
pub(crate) fn bound(t: SpeedTracker) -> SpeedTracker
    requires { Counted t }
    ensures { (view result ≡ bound standard (view t)) × Counted result }
{
    let mut u = t;
    u.pair = constrain(t.pair, t.ratio_hint);
    u
}
