// How a tracker becomes ready other than by its fifth mark.
ghost use Rattle.std.specs.Prelude.{◌≡◌, T, cond};
ghost use Rattle.std.proofs.Math.Option.{none, some};
ghost use Rattle.std.specs.Float.Ieee.Positive.{positive};
ghost use Rattle.ranges.specs.Settings.{standard};
ghost use Rattle.tracker.specs.Model.{view};
ghost use Rattle.tracker.specs.Parts.{blank, other};
ghost use Rattle.tracker.specs.Steps.{fresh, can_begin, bootstrapped, seeded, reseeded};

use crate::inner::speed::{bound, timed};
use crate::{SoundTracker, SpeedTracker};
use marks::Marks;
use pair::ClusterPair;
use pair::inner::lock::initialize;
use pair::inner::readings::seed_pair;
use ring::RingEntry;

// A fresh tracker.
pub fn fresh() -> SoundTracker
    ensures { (result.tracker ≡ blank) × (view result.tracker ≡ fresh) }
{
    let pair = ClusterPair {
        lo: 0.0,
        hi: 0.0,
        init: [0.0; 12],
        init_len: 0,
        ready: false,
        confirmed: false,
        placeholder_is_lo: false,
        lo_n: 0,
    };
    let none = RingEntry {
        dur_ms: 0.0,
        assigned_dit: false,
        pre_lo: 0.0,
        pre_hi: 0.0,
    };
    let tracker = SpeedTracker {
        pair,
        ring: [none; 12],
        ring_len: 0,
        wpm_ema: None,
        recent: [0.0; 5],
        recent_len: 0,
        mu_egap_ms: None,
        ratio_hint: None,
        regime: 0,
        badlock_recovered: false,
        lo_uncorroborated: false,
    };
    SoundTracker { tracker }
}

// A finish: one that cannot begin stays as it is.
pub fn bootstrap(t: SoundTracker) -> SoundTracker
    ensures { view result.tracker ≡ bootstrapped standard (view t.tracker) }
{
    begun(t).unwrap_or(t)
}

// A finish: the tracker that it makes ready, of one that can begin: unready, with two start marks at least.
pub fn begun(t: SoundTracker) -> Option<SoundTracker>
    ensures { other result ≡ cond (can_begin (view t.tracker)) (some (bootstrapped standard (view t.tracker))) none }
{
    if t.tracker.pair.ready || t.tracker.pair.init_len < 2 {
        return None;
    }
    let mut u = t.tracker;
    u.pair = initialize(Marks {
        at: &t.tracker.pair.init[..t.tracker.pair.init_len],
    });
    Some(SoundTracker {
        tracker: timed(bound(u)),
    })
}

// A seed.
#[tactic(auto, unfolding(crate::specs::Steps::seeded))]
pub fn seed_wpm(t: SoundTracker, wpm: f32) -> SoundTracker
    requires { T (positive wpm) }
    ensures { view result.tracker ≡ seeded standard (view t.tracker) wpm }
{
    let dit = (1200.0 / wpm).clamp(20.0, 150.0);
    let mut u = t.tracker;
    u.pair = seed_pair(dit);
    u.ring_len = 0;
    u.recent_len = 0;
    u.mu_egap_ms = None;
    u.lo_uncorroborated = true;
    SoundTracker { tracker: timed(u) }
}

// The speed average of a ready tracker begins anew.
pub fn reseed_wpm_after_warmup(t: SoundTracker) -> SoundTracker
    ensures { view result.tracker ≡ reseeded standard (view t.tracker) }
{
    if !t.tracker.pair.ready {
        return t;
    }
    SoundTracker {
        tracker: timed(t.tracker),
    }
}
