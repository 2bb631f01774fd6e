// Hints and element gaps.
ghost use Rattle.std.specs.Prelude.{◌≡◌};
ghost use Rattle.ranges.specs.Settings.{standard};
ghost use Rattle.pair.specs.Model.{held};
ghost use Rattle.tracker.specs.Model.{view};
ghost use Rattle.tracker.specs.Parts.{unflagged};
ghost use Rattle.tracker.specs.Steps.{set_hint, gap_moved, on_gap};

use crate::SoundTracker;
use order::is_finite32;
use ranges::Duration;

// The hint, clamped; one that is not finite empties it.
pub fn set_ratio_hint(t: SoundTracker, hint: f32) -> SoundTracker
    ensures { view result.tracker ≡ set_hint standard (view t.tracker) hint }
{
    let mut u = t.tracker;
    u.ratio_hint = is_finite32(hint).then_some(hint.clamp(2.2, 6.0));
    SoundTracker { tracker: u }
}

// The gap centroid after a gap of d.
pub(crate) fn gap_moved(egap: Option<f32>, d: f32) -> f32
    ensures { result ≡ gap_moved standard (held egap) d }
{
    match egap {
        Some(g) => g + 0.15 * (d - g),
        None => d,
    }
}

// One element gap.
#[tactic(auto, unfolding(crate::specs::Steps::on_gap))]
pub fn on_element_gap(t: SoundTracker, d: Duration) -> SoundTracker
    ensures { view result.tracker ≡ on_gap standard (view t.tracker) d.ms }
{
    let mut u = t.tracker;
    u.mu_egap_ms = Some(gap_moved(u.mu_egap_ms, d.ms));
    SoundTracker { tracker: u }
}

// The flag of a recovery is cleared.
#[tactic(auto, unfolding(crate::specs::Parts::unflagged))]
pub fn settle(t: SoundTracker) -> SoundTracker
    ensures { result.tracker ≡ unflagged t.tracker }
{
    let mut u = t.tracker;
    u.badlock_recovered = false;
    SoundTracker { tracker: u }
}
