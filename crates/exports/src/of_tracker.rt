// The calls of the crate `tracker`: the tracker in its plain form by value, and an answer as a struct of plain numbers.
// A form that is no tracker's is refused by 1.
ghost use Rattle.std.specs.Prelude.{◌≡◌, T};
ghost use Rattle.ranges.specs.Limits.{duration_refusal};
ghost use Rattle.ranges.specs.Settings.{standard};
ghost use Rattle.refusals.specs.Refusal.{refusal_of};
ghost use Rattle.marks.specs.Lists.{list_refusal};
ghost use Rattle.pair.specs.Lock.{boundary};
ghost use Rattle.pair.specs.Model.{held};
ghost use Rattle.pair.specs.Readings.{gaps_say_dahs};
ghost use Rattle.tracker.specs.Answers.{count, done, flag, number, optional, speed_refusal, told, unless};
ghost use Rattle.tracker.specs.Model.{view};
ghost use Rattle.tracker.specs.Parts.{blank};
ghost use Rattle.tracker.specs.Sound.{sound};
ghost use Rattle.tracker.specs.Steps.{
  bootstrapped,
  can_begin,
  dit_estimate,
  fresh,
  on_gap,
  on_mark,
  reseeded,
  resolved,
  seeded,
  set_hint,
  settled,
};
ghost use Rattle.plain_tracker.specs.Plain.{plain_tracker, tracker_of};
ghost use Rattle.exports.specs.Tracker.{
  code,
  yes,
  counted,
  flagged,
  form_state_then,
  numbered,
  Handed,
  ReadAs,
  left_by,
  said_by,
  told_by,
};

use plain_tracker::PlainTracker;
use refusals::Refusal;
use tracker::SpeedTracker;

// The answer of a call that changes the tracker: the code is 0 or the number of the refusal.
#[repr(C)]
#[derive(Clone, Copy)]
pub struct TrackerTold {
    pub code: u8,
    pub tracker: PlainTracker,
}

// The same of a call that tells yes or no.
#[repr(C)]
#[derive(Clone, Copy)]
pub struct TrackerFlagged {
    pub code: u8,
    pub yes: bool,
    pub tracker: PlainTracker,
}

// The answer of a call that tells a number: `has` is false where there is none.
#[repr(C)]
#[derive(Clone, Copy)]
pub struct TrackerNumber {
    pub code: u8,
    pub has: bool,
    pub value: f32,
}

// The answer of a call that only tells yes or no.
#[repr(C)]
#[derive(Clone, Copy)]
pub struct TrackerFlag {
    pub code: u8,
    pub yes: bool,
}

// The answer of a call that tells a count.
#[repr(C)]
#[derive(Clone, Copy)]
pub struct TrackerCount {
    pub code: u8,
    pub value: u32,
}

// The tracker of a form; where the form is no tracker's, one that every call refuses by 1.
pub(crate) fn read_as(t: PlainTracker) -> SpeedTracker
    ensures { ReadAs t result }
{
    match SpeedTracker::try_from(t) {
        Ok(u) => u,
        Err(_) => SpeedTracker {
            ring_len: 13,
            ..SpeedTracker::new()
        },
    }
}

// The number of an answer's refusal, 0 where it has none.
pub(crate) fn code_of<A: Copy>(said: Result<A, Refusal>) -> u8
    ensures { result ≡ refusal_of said }
{
    match said {
        Ok(_) => 0,
        Err(r) => u8::from(r),
    }
}

// The form that a call leaves: as it was where the call is refused.
pub(crate) fn left<A: Copy>(
    t: PlainTracker,
    said: Result<A, Refusal>,
    u: SpeedTracker,
) -> PlainTracker
    ensures { result ≡ left_by t said u }
{
    match said {
        Ok(_) => PlainTracker::from(u),
        Err(_) => t,
    }
}

// Each answer as C reads it.
pub(crate) fn told(t: PlainTracker, said: Result<(), Refusal>, u: SpeedTracker) -> TrackerTold
    ensures { result ≡ told_by t said u }
{
    TrackerTold {
        code: code_of(said),
        tracker: left(t, said, u),
    }
}

pub(crate) fn said(t: PlainTracker, said: Result<bool, Refusal>, u: SpeedTracker) -> TrackerFlagged
    ensures { result ≡ said_by t said u }
{
    TrackerFlagged {
        code: code_of(said),
        yes: said.unwrap_or(false),
        tracker: left(t, said, u),
    }
}

pub(crate) fn optional(x: Result<Option<f32>, Refusal>) -> TrackerNumber
    ensures { result ≡ numbered (told (λ v. optional (held v)) x) }
{
    let v = x.unwrap_or(None);
    TrackerNumber {
        code: code_of(x),
        has: v.is_some(),
        value: v.unwrap_or(0.0),
    }
}

pub(crate) fn number(x: Result<f32, Refusal>) -> TrackerNumber
    ensures { result ≡ numbered (told number x) }
{
    optional(x.map(Some))
}

pub(crate) fn plain_flag(x: Result<bool, Refusal>) -> TrackerFlag
    ensures { result ≡ flagged (told flag x) }
{
    TrackerFlag {
        code: code_of(x),
        yes: x.unwrap_or(false),
    }
}

pub(crate) fn plain_count(x: Result<u32, Refusal>) -> TrackerCount
    ensures { result ≡ counted (told count x) }
{
    TrackerCount {
        code: code_of(x),
        value: x.unwrap_or(0),
    }
}

// A fresh tracker.
pub fn hullathan_tracker_new() -> PlainTracker
    ensures { (result ≡ plain_tracker blank) ×
        ((view (tracker_of result) ≡ fresh) × T (sound standard (tracker_of result))) }
{
    PlainTracker::from(SpeedTracker::new())
}

// Whether it is ready.
pub fn hullathan_tracker_ready(t: PlainTracker) -> TrackerFlag
    ensures { result ≡ flagged (unless (form_state_then t 0) (flag (view (tracker_of t)).pair.ready)) }
{
    plain_flag(read_as(t).ready())
}

// The dit centroid.
pub fn hullathan_tracker_mu_dit_ms(t: PlainTracker) -> TrackerNumber
    ensures { result ≡ numbered (unless (form_state_then t 0) (number (view (tracker_of t)).pair.lo)) }
{
    number(read_as(t).mu_dit_ms())
}

// The dah centroid.
pub fn hullathan_tracker_mu_dah_ms(t: PlainTracker) -> TrackerNumber
    ensures { result ≡ numbered (unless (form_state_then t 0) (number (view (tracker_of t)).pair.hi)) }
{
    number(read_as(t).mu_dah_ms())
}

// The boundary between dits and dahs.
pub fn hullathan_tracker_boundary_ms(t: PlainTracker) -> TrackerNumber
    ensures { result ≡ numbered (unless (form_state_then t 0) (number (boundary (view (tracker_of t)).pair))) }
{
    number(read_as(t).boundary_ms())
}

// The speed average.
pub fn hullathan_tracker_wpm(t: PlainTracker) -> TrackerNumber
    ensures { result ≡ numbered (unless (form_state_then t 0) (optional (view (tracker_of t)).wpm)) }
{
    optional(read_as(t).wpm())
}

// How often the scale was rebuilt.
pub fn hullathan_tracker_regime(t: PlainTracker) -> TrackerCount
    ensures { result ≡ counted (unless (form_state_then t 0) (count (view (tracker_of t)).regime)) }
{
    plain_count(read_as(t).regime())
}

// The gap centroid.
pub fn hullathan_tracker_mu_egap_ms(t: PlainTracker) -> TrackerNumber
    ensures { result ≡ numbered (unless (form_state_then t 0) (optional (view (tracker_of t)).egap)) }
{
    optional(read_as(t).mu_egap_ms())
}

// The dit estimate.
pub fn hullathan_tracker_dit_estimate_ms(t: PlainTracker) -> TrackerNumber
    ensures { result ≡ numbered (unless (form_state_then t 0) (number (dit_estimate standard (view (tracker_of t))))) }
{
    number(read_as(t).dit_estimate_ms())
}

// The hint, or none where it is not finite.
pub fn hullathan_tracker_set_ratio_hint(t: PlainTracker, hint: f32) -> TrackerTold
    ensures code_value { result.code ≡ code (unless (form_state_then t 0) done) }
    ensures handed { Handed standard (form_state_then t 0) t
        (set_hint standard (view (tracker_of t)) hint) result.tracker }
{
    let mut u = read_as(t);
    let answer = u.set_ratio_hint(hint);
    told(t, answer, u)
}

// One element gap.
pub fn hullathan_tracker_on_element_gap(t: PlainTracker, dur_ms: f32) -> TrackerTold
    ensures code_value { result.code ≡ code (unless (form_state_then t (duration_refusal dur_ms)) done) }
    ensures handed { Handed standard (form_state_then t (duration_refusal dur_ms)) t
        (on_gap standard (view (tracker_of t)) dur_ms) result.tracker }
{
    let mut u = read_as(t);
    let answer = u.on_element_gap(dur_ms);
    told(t, answer, u)
}

// A seed, from a speed.
pub fn hullathan_tracker_seed_wpm(t: PlainTracker, wpm: f32) -> TrackerTold
    ensures code_value { result.code ≡ code (unless (form_state_then t (speed_refusal wpm)) done) }
    ensures handed { Handed standard (form_state_then t (speed_refusal wpm)) t
        (seeded standard (view (tracker_of t)) wpm) result.tracker }
{
    let mut u = read_as(t);
    let answer = u.seed_wpm(wpm);
    told(t, answer, u)
}

// One mark.
pub fn hullathan_tracker_on_mark(t: PlainTracker, dur_ms: f32) -> TrackerTold
    ensures code_value { result.code ≡ code (unless (form_state_then t (duration_refusal dur_ms)) done) }
    ensures handed { Handed standard (form_state_then t (duration_refusal dur_ms)) t
        (on_mark standard (view (tracker_of t)) dur_ms) result.tracker }
{
    let mut u = read_as(t);
    let answer = u.on_mark(dur_ms);
    told(t, answer, u)
}

// The speed average of a ready tracker begins anew.
pub fn hullathan_tracker_reseed_wpm_after_warmup(t: PlainTracker) -> TrackerTold
    ensures code_value { result.code ≡ code (unless (form_state_then t 0) done) }
    ensures handed { Handed standard (form_state_then t 0) t (reseeded standard (view (tracker_of t))) result.tracker }
{
    let mut u = read_as(t);
    let answer = u.reseed_wpm_after_warmup();
    told(t, answer, u)
}

// Whether a fragment was recovered from since the last such call.
pub fn hullathan_tracker_take_badlock_recovered(t: PlainTracker) -> TrackerFlagged
    ensures code_value { result.code ≡ code (unless (form_state_then t 0) (flag (view (tracker_of t)).recovered)) }
    ensures yes_value { result.yes ≡ yes (unless (form_state_then t 0) (flag (view (tracker_of t)).recovered)) }
    ensures handed { Handed standard (form_state_then t 0) t (settled (view (tracker_of t))) result.tracker }
{
    let mut u = read_as(t);
    let answer = u.take_badlock_recovered();
    said(t, answer, u)
}

// A finish: whether it made the tracker ready.
pub fn hullathan_tracker_bootstrap(t: PlainTracker) -> TrackerFlagged
    ensures code_value { result.code ≡ code (unless (form_state_then t 0) (flag (can_begin (view (tracker_of t))))) }
    ensures yes_value { result.yes ≡ yes (unless (form_state_then t 0) (flag (can_begin (view (tracker_of t))))) }
    ensures handed { Handed standard (form_state_then t 0) t
        (bootstrapped standard (view (tracker_of t))) result.tracker }
{
    let mut u = read_as(t);
    let answer = u.bootstrap();
    said(t, answer, u)
}

// Gaps that may say that assumed dits are dahs: whether they do.
pub fn hullathan_tracker_resolve_unimodal_bootstrap(
    t: PlainTracker,
    gaps_ms: &[f32],
) -> TrackerFlagged
    ensures code_value { result.code ≡ code
        (unless (form_state_then t (list_refusal gaps_ms.now))
        (flag (gaps_say_dahs standard (view (tracker_of t)).pair gaps_ms.now))) }
    ensures yes_value { result.yes ≡ yes
        (unless (form_state_then t (list_refusal gaps_ms.now))
        (flag (gaps_say_dahs standard (view (tracker_of t)).pair gaps_ms.now))) }
    ensures handed { Handed standard (form_state_then t (list_refusal gaps_ms.now)) t
        (resolved standard (view (tracker_of t)) gaps_ms.now) result.tracker }
{
    let mut u = read_as(t);
    let answer = u.resolve_unimodal_bootstrap(gaps_ms);
    said(t, answer, u)
}
