// From a tracker to its plain form. What lies beyond a count, or is absent, is left empty.
ghost use Rattle.std.specs.Prelude.{◌≡◌};
ghost use Rattle.plain_tracker.specs.Plain.{blank_entry, plain_pair, plain_entry, plain_tracker};

use crate::inner::carried;
use crate::{PlainEntry, PlainPair, PlainTracker};
use pair::ClusterPair;
use ring::RingEntry;
use tracker::SpeedTracker;

// The centroids and the start marks.
impl From<ClusterPair> for PlainPair {
    ghost from_gives = { λ p q. q ≡ plain_pair p };

    fn from(p: ClusterPair) -> PlainPair {
        let init = carried(&p.init, p.init_len, 0.0, |d| d);
        PlainPair {
            lo: p.lo,
            hi: p.hi,
            init,
            init_len: p.init_len,
            ready: u8::from(p.ready),
            confirmed: u8::from(p.confirmed),
            placeholder_is_lo: u8::from(p.placeholder_is_lo),
            pad_placeholder_is_lo: [0; 5],
            lo_n: p.lo_n,
        }
    }
}

// One mark of the ring.
impl From<RingEntry> for PlainEntry {
    ghost from_gives = { λ e q. q ≡ plain_entry e };

    fn from(e: RingEntry) -> PlainEntry {
        PlainEntry {
            dur_ms: e.dur_ms,
            assigned_dit: u8::from(e.assigned_dit),
            pad_assigned_dit: [0; 3],
            pre_lo: e.pre_lo,
            pre_hi: e.pre_hi,
        }
    }
}

// A place of the ring that holds nothing.
pub(crate) fn blank_entry() -> PlainEntry
    ensures { result ≡ blank_entry }
{
    PlainEntry::default()
}

// A tracker.
impl From<SpeedTracker> for PlainTracker {
    ghost from_gives = { λ t q. q ≡ plain_tracker t };

    fn from(t: SpeedTracker) -> PlainTracker {
        let ring = carried(&t.ring, t.ring_len, blank_entry(), PlainEntry::from);
        let recent = carried(&t.recent, t.recent_len, 0.0, |d| d);
        PlainTracker {
            pair: PlainPair::from(t.pair),
            ring,
            ring_len: t.ring_len,
            has_wpm: u8::from(t.wpm_ema.is_some()),
            pad_has_wpm: [0; 3],
            wpm_ema: t.wpm_ema.unwrap_or(0.0),
            recent,
            pad_recent: [0; 4],
            recent_len: t.recent_len,
            has_egap: u8::from(t.mu_egap_ms.is_some()),
            pad_has_egap: [0; 3],
            mu_egap_ms: t.mu_egap_ms.unwrap_or(0.0),
            has_hint: u8::from(t.ratio_hint.is_some()),
            pad_has_hint: [0; 3],
            ratio_hint: t.ratio_hint.unwrap_or(0.0),
            regime: t.regime,
            badlock_recovered: u8::from(t.badlock_recovered),
            lo_uncorroborated: u8::from(t.lo_uncorroborated),
            pad_lo_uncorroborated: [0; 2],
        }
    }
}
