// From a plain form to its tracker. What lies beyond a count is no part of it, and is read as it stands.
ghost use Rattle.std.specs.Prelude.{◌≡◌, IfOk};
ghost use Rattle.refusals.specs.Refusal.{refusal_of};
ghost use Rattle.plain_tracker.specs.Plain.{as_flag, pair_of, entry_of, tracker_of, form_then};

use crate::is::is_tracker;
use crate::{PlainEntry, PlainPair, PlainTracker};
use pair::ClusterPair;
use refusals::Refusal;
use ring::RingEntry;
use tracker::SpeedTracker;

// The flag that has a number; one that no flag has is read as no.
pub fn flag_of(n: u8) -> bool
    ensures { result ≡ as_flag n }
{
    n == 1
}

// The centroids and the start marks.
pub fn pair_of(p: PlainPair) -> ClusterPair
    ensures { result ≡ pair_of p }
{
    let init = p.init;
    ClusterPair {
        lo: p.lo,
        hi: p.hi,
        init,
        init_len: p.init_len,
        ready: flag_of(p.ready),
        confirmed: flag_of(p.confirmed),
        placeholder_is_lo: flag_of(p.placeholder_is_lo),
        lo_n: p.lo_n,
    }
}

// One mark of the ring.
pub fn entry_of(p: PlainEntry) -> RingEntry
    ensures { result ≡ entry_of p }
{
    RingEntry {
        dur_ms: p.dur_ms,
        assigned_dit: flag_of(p.assigned_dit),
        pre_lo: p.pre_lo,
        pre_hi: p.pre_hi,
    }
}

// A tracker.
pub fn tracker_of(p: PlainTracker) -> SpeedTracker
    ensures { result ≡ tracker_of p }
{
    let ring = p.ring.map(entry_of);
    let recent = p.recent;
    SpeedTracker {
        pair: pair_of(p.pair),
        ring,
        ring_len: p.ring_len,
        wpm_ema: flag_of(p.has_wpm).then_some(p.wpm_ema),
        recent,
        recent_len: p.recent_len,
        mu_egap_ms: flag_of(p.has_egap).then_some(p.mu_egap_ms),
        ratio_hint: flag_of(p.has_hint).then_some(p.ratio_hint),
        regime: p.regime,
        badlock_recovered: flag_of(p.badlock_recovered),
        lo_uncorroborated: flag_of(p.lo_uncorroborated),
    }
}

// The tracker of a form, where the form is one's; else refusal 1.
impl TryFrom<PlainTracker> for SpeedTracker {
    type Error = Refusal;

    ghost try_from_gives = { λ p r. (refusal_of r ≡ form_then p 0) × IfOk r (λ t. t ≡ tracker_of p) };

    fn try_from(p: PlainTracker) -> Result<SpeedTracker, Refusal> {
        if is_tracker(p) {
            Ok(tracker_of(p))
        } else {
            Err(Refusal::UnsoundState)
        }
    }
}
