// Whether a challenger is sound (document 01, refusal 1).
ghost use Rattle.std.specs.Prelude.{◌≡◌, true, T};
ghost use Rattle.ranges.specs.Settings.{standard};
ghost use Rattle.tracker.specs.Sound as Tracking;
ghost use Rattle.rival.specs.Sound.{same, score, logs_same, scores_sound, hyp_sound};
ghost use Rattle.rival.specs.Parts.{HoldsLogs, Fit};

use crate::TimingHypothesis;
use bank_model::inner::scores::log_of;
use order::negative32;
use ranges::within;
use tracker::inner::sound::is_sound;

const LEAST: f32 = -30.0;

// Whether two numbers have one value and one sign.
pub(crate) fn is_same(a: f32, b: f32) -> bool
    ensures { (result ≡ same a b) × (result ≡ true → a ≡ b) }
{
    a == b && negative32(a) == negative32(b)
}

// Whether a score lies from -30 to 0.
pub fn is_score(s: f32) -> bool
    ensures { result ≡ score s }
{
    within(s, LEAST, 0.0)
}

// Whether a challenger holds the logarithms of its centroids.
pub(crate) fn has_logs(h: TimingHypothesis) -> bool
    requires { T (Tracking.sound standard h.tracker) × (h.tracker.pair.ready ≡ true) }
    ensures { (result ≡ logs_same h) × (result ≡ true → HoldsLogs h) }
{
    let p = h.tracker.pair;
    let lo = log_of(p.lo);
    let hi = log_of(p.hi);
    is_same(h.ln_lo, lo) && is_same(h.ln_hi, hi)
}

// Whether both scores of a challenger are scores.
pub(crate) fn has_scores(h: TimingHypothesis) -> bool
    ensures { result ≡ scores_sound h }
{
    is_score(h.score) && is_score(h.gap_score)
}

// Whether a challenger is sound.
pub fn is_hyp_sound(h: TimingHypothesis) -> bool
    ensures { (result ≡ hyp_sound standard h) × (result ≡ true → Fit h) }
{
    is_sound(h.tracker) && h.tracker.pair.ready && has_logs(h) && has_scores(h)
}
