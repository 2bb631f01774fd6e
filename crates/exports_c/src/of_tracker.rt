// The calls of the crate `tracker`: the tracker in its plain form by value, and an answer as a struct of plain numbers.
// A form that is no tracker's is refused by 1.
ghost use Rattle.std.specs.Prelude.{◌≡◌, T};
ghost use Rattle.ranges.specs.Limits.{duration_refusal};
ghost use Rattle.ranges.specs.Settings.{standard};
ghost use Rattle.tracker.specs.Model.{view};
ghost use Rattle.marks.specs.Lists.{list_refusal};
ghost use Rattle.pair.specs.Lock.{boundary};
ghost use Rattle.tracker.specs.Parts.{blank};
ghost use Rattle.tracker.specs.Sound.{sound};
ghost use Rattle.tracker.specs.Steps.{
  bootstrapped,
  can_begin,
  dit_estimate,
  fresh,
  on_gap,
  on_mark,
  reseeded,
  resolved,
  seeded,
  set_hint,
  settled,
};
ghost use Rattle.pair.specs.Readings.{gaps_say_dahs};
ghost use Rattle.tracker.specs.Answers.{
  count,
  done,
  flag,
  number,
  optional,
  speed_refusal,
  unless,
};
ghost use Rattle.plain_tracker.specs.Plain.{plain_tracker, tracker_of};
ghost use Rattle.exports.specs.Tracker.{code, yes, counted, flagged, form_state_then, numbered, Handed};

use exports::of_tracker::{TrackerCount, TrackerFlag, TrackerFlagged, TrackerNumber, TrackerTold};
use plain_tracker::PlainTracker;

// A fresh tracker.
#[unsafe(no_mangle)]
pub extern "C" fn hullathan_tracker_new() -> PlainTracker
    ensures { (result ≡ plain_tracker blank)
        × ((view (tracker_of result) ≡ fresh) × T (sound standard (tracker_of result))) }
{
    exports::of_tracker::hullathan_tracker_new()
}

// Whether it is ready.
#[unsafe(no_mangle)]
pub extern "C" fn hullathan_tracker_ready(t: PlainTracker) -> TrackerFlag
    ensures { result ≡ flagged (unless (form_state_then t 0) (flag (view (tracker_of t)).pair.ready)) }
{
    exports::of_tracker::hullathan_tracker_ready(t)
}

// The dit centroid.
#[unsafe(no_mangle)]
pub extern "C" fn hullathan_tracker_mu_dit_ms(t: PlainTracker) -> TrackerNumber
    ensures { result ≡ numbered (unless (form_state_then t 0) (number (view (tracker_of t)).pair.lo)) }
{
    exports::of_tracker::hullathan_tracker_mu_dit_ms(t)
}

// The dah centroid.
#[unsafe(no_mangle)]
pub extern "C" fn hullathan_tracker_mu_dah_ms(t: PlainTracker) -> TrackerNumber
    ensures { result ≡ numbered (unless (form_state_then t 0) (number (view (tracker_of t)).pair.hi)) }
{
    exports::of_tracker::hullathan_tracker_mu_dah_ms(t)
}

// The boundary between dits and dahs.
#[unsafe(no_mangle)]
pub extern "C" fn hullathan_tracker_boundary_ms(t: PlainTracker) -> TrackerNumber
    ensures { result ≡ numbered (unless (form_state_then t 0) (number (boundary (view (tracker_of t)).pair))) }
{
    exports::of_tracker::hullathan_tracker_boundary_ms(t)
}

// The speed average.
#[unsafe(no_mangle)]
pub extern "C" fn hullathan_tracker_wpm(t: PlainTracker) -> TrackerNumber
    ensures { result ≡ numbered (unless (form_state_then t 0) (optional (view (tracker_of t)).wpm)) }
{
    exports::of_tracker::hullathan_tracker_wpm(t)
}

// How often the scale was rebuilt.
#[unsafe(no_mangle)]
pub extern "C" fn hullathan_tracker_regime(t: PlainTracker) -> TrackerCount
    ensures { result ≡ counted (unless (form_state_then t 0) (count (view (tracker_of t)).regime)) }
{
    exports::of_tracker::hullathan_tracker_regime(t)
}

// The gap centroid.
#[unsafe(no_mangle)]
pub extern "C" fn hullathan_tracker_mu_egap_ms(t: PlainTracker) -> TrackerNumber
    ensures { result ≡ numbered (unless (form_state_then t 0) (optional (view (tracker_of t)).egap)) }
{
    exports::of_tracker::hullathan_tracker_mu_egap_ms(t)
}

// The dit estimate.
#[unsafe(no_mangle)]
pub extern "C" fn hullathan_tracker_dit_estimate_ms(t: PlainTracker) -> TrackerNumber
    ensures { result ≡ numbered
        (unless (form_state_then t 0) (number (dit_estimate standard (view (tracker_of t))))) }
{
    exports::of_tracker::hullathan_tracker_dit_estimate_ms(t)
}

// The hint, or none where it is not finite.
#[unsafe(no_mangle)]
pub extern "C" fn hullathan_tracker_set_ratio_hint(t: PlainTracker, hint: f32) -> TrackerTold
    ensures code_value { result.code ≡ code (unless (form_state_then t 0) done) }
    ensures handed { Handed standard (form_state_then t 0) t (set_hint standard (view (tracker_of t)) hint)
        result.tracker }
{
    exports::of_tracker::hullathan_tracker_set_ratio_hint(t, hint)
}

// One element gap.
#[unsafe(no_mangle)]
pub extern "C" fn hullathan_tracker_on_element_gap(t: PlainTracker, dur_ms: f32) -> TrackerTold
    ensures code_value { result.code ≡ code (unless (form_state_then t (duration_refusal dur_ms)) done) }
    ensures handed { Handed standard (form_state_then t (duration_refusal dur_ms)) t
        (on_gap standard (view (tracker_of t)) dur_ms) result.tracker }
{
    exports::of_tracker::hullathan_tracker_on_element_gap(t, dur_ms)
}

// A seed, from a speed.
#[unsafe(no_mangle)]
pub extern "C" fn hullathan_tracker_seed_wpm(t: PlainTracker, wpm: f32) -> TrackerTold
    ensures code_value { result.code ≡ code (unless (form_state_then t (speed_refusal wpm)) done) }
    ensures handed { Handed standard (form_state_then t (speed_refusal wpm)) t
        (seeded standard (view (tracker_of t)) wpm) result.tracker }
{
    exports::of_tracker::hullathan_tracker_seed_wpm(t, wpm)
}

// One mark.
#[unsafe(no_mangle)]
pub extern "C" fn hullathan_tracker_on_mark(t: PlainTracker, dur_ms: f32) -> TrackerTold
    ensures code_value { result.code ≡ code (unless (form_state_then t (duration_refusal dur_ms)) done) }
    ensures handed { Handed standard (form_state_then t (duration_refusal dur_ms)) t
        (on_mark standard (view (tracker_of t)) dur_ms) result.tracker }
{
    exports::of_tracker::hullathan_tracker_on_mark(t, dur_ms)
}

// The speed average of a ready tracker begins anew.
#[unsafe(no_mangle)]
pub extern "C" fn hullathan_tracker_reseed_wpm_after_warmup(t: PlainTracker) -> TrackerTold
    ensures code_value { result.code ≡ code (unless (form_state_then t 0) done) }
    ensures handed { Handed standard (form_state_then t 0) t (reseeded standard (view (tracker_of t))) result.tracker }
{
    exports::of_tracker::hullathan_tracker_reseed_wpm_after_warmup(t)
}

// Whether a fragment was recovered from since the last such call.
#[unsafe(no_mangle)]
pub extern "C" fn hullathan_tracker_take_badlock_recovered(t: PlainTracker) -> TrackerFlagged
    ensures code_value { result.code ≡ code (unless (form_state_then t 0) (flag (view (tracker_of t)).recovered)) }
    ensures yes_value { result.yes ≡ yes (unless (form_state_then t 0) (flag (view (tracker_of t)).recovered)) }
    ensures handed { Handed standard (form_state_then t 0) t (settled (view (tracker_of t))) result.tracker }
{
    exports::of_tracker::hullathan_tracker_take_badlock_recovered(t)
}

// A finish: whether it made the tracker ready.
#[unsafe(no_mangle)]
pub extern "C" fn hullathan_tracker_bootstrap(t: PlainTracker) -> TrackerFlagged
    ensures code_value { result.code ≡ code (unless (form_state_then t 0) (flag (can_begin (view (tracker_of t))))) }
    ensures yes_value { result.yes ≡ yes (unless (form_state_then t 0) (flag (can_begin (view (tracker_of t))))) }
    ensures handed { Handed standard (form_state_then t 0) t (bootstrapped standard (view (tracker_of t)))
        result.tracker }
{
    exports::of_tracker::hullathan_tracker_bootstrap(t)
}

// Gaps that may say that assumed dits are dahs: whether they do.
#[unsafe(no_mangle)]
pub extern "C" fn hullathan_tracker_resolve_unimodal_bootstrap(
    t: PlainTracker,
    gaps_ms: &[f32],
) -> TrackerFlagged
    ensures code_value { result.code ≡ code
        (unless (form_state_then t (list_refusal gaps_ms.now))
        (flag (gaps_say_dahs standard (view (tracker_of t)).pair gaps_ms.now))) }
    ensures yes_value { result.yes ≡ yes
        (unless (form_state_then t (list_refusal gaps_ms.now))
        (flag (gaps_say_dahs standard (view (tracker_of t)).pair gaps_ms.now))) }
    ensures handed { Handed standard (form_state_then t (list_refusal gaps_ms.now)) t
        (resolved standard (view (tracker_of t)) gaps_ms.now) result.tracker }
{
    exports::of_tracker::hullathan_tracker_resolve_unimodal_bootstrap(t, gaps_ms)
}
