// Gaps that say that assumed dits are dahs (the Rust's `resolve_unimodal_bootstrap`).
ghost use Rattle.std.specs.Prelude.{◌≡◌, cond};
ghost use Rattle.std.proofs.Math.Option.{none, some};
ghost use Rattle.ranges.specs.Settings.{standard};
ghost use Rattle.tracker.specs.Model.{view};
ghost use Rattle.tracker.specs.Parts.{other};
ghost use Rattle.pair.specs.Readings.{gaps_say_dahs, turned};
ghost use Rattle.tracker.specs.Steps.{resolved};

use crate::SoundTracker;
use crate::inner::speed::{bound, timed};
use marks::Gaps;
use pair::inner::readings::{says_dahs, turned};

// Assumed dits are read as dahs where the gaps say so; else the tracker stays as it is.
pub fn resolve_unimodal_bootstrap(t: SoundTracker, gaps: Gaps) -> SoundTracker
    ensures { view result.tracker ≡ resolved standard (view t.tracker) gaps.entry.at.now }
{
    resolved(t, gaps).unwrap_or(t)
}

// Assumed dits read as dahs, where the gaps say so.
pub fn resolved(t: SoundTracker, gaps: Gaps) -> Option<SoundTracker>
    ensures { other result ≡ cond (gaps_say_dahs standard (view t.tracker).pair gaps.entry.at.now)
        (some (resolved standard (view t.tracker) gaps.entry.at.now)) none }
{
    if !says_dahs(t.tracker.pair, gaps) {
        return None;
    }
    let mut u = t.tracker;
    u.pair = turned(u.pair);
    Some(SoundTracker {
        tracker: timed(bound(u)),
    })
}
