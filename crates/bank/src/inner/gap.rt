// One gap (the Rust's `on_gap`).
ghost use Rattle.std.specs.Prelude.{◌≡◌};
ghost use Rattle.ranges.specs.Settings.{standard};
ghost use Rattle.tracker.specs.Model as Tracked;
ghost use Rattle.bank_model.specs.Steps.{pausing_at, held_gap_out, on_gap};
ghost use Rattle.bank.specs.View.{view};

use crate::inner::among::greatest_unit;
use crate::inner::mark::hears;
use crate::inner::space::hear_space;
use crate::{OpenBank, SoundBank};
use ranges::Duration;
use tracker::SoundTracker;
use tracker::inner::speed::dit_estimate;

// Whether the gap d is a pause.
pub(crate) fn is_pause(b: SoundBank, u: f32, d: Duration) -> bool
    ensures { result ≡ pausing_at standard (view b.bank) u d.ms }
{
    12.0 * greatest_unit(b, u) <= d.ms
}

// The held gap is taken out.
pub(crate) fn drop_gap(b: SoundBank) -> SoundBank
    ensures { view result.bank ≡ held_gap_out (view b.bank) }
{
    let mut c = b.bank;
    c.last_gap = None;
    SoundBank { bank: c }
}

// One gap, beside the primary p.
pub fn on_gap(b: OpenBank, p: SoundTracker, d: Duration) -> SoundBank
    ensures { view result.bank ≡ on_gap standard (view b.bank.bank) (Tracked.view p.tracker) d.ms }
{
    if !hears(b.bank.bank.width, p.tracker.pair.ready) {
        return b.bank;
    }
    let u = dit_estimate(p.tracker);
    if is_pause(b.bank, u, d) {
        return drop_gap(b.bank);
    }
    hear_space(b, p.tracker, u, d)
}
