// Trackers that a bank makes (the Rust's `from_marks` and `three_to_one_alternative`).
ghost use Rattle.std.specs.Prelude.{◌≡◌, ◌≤◌, length};
ghost use Rattle.ranges.specs.Interval.{AllIn};
ghost use Rattle.ranges.specs.Limits.{duration_min, duration_max};
ghost use Rattle.ranges.specs.Settings.{standard};
ghost use Rattle.tracker.specs.Model.{view, with_pair};
ghost use Rattle.tracker.specs.Parts.{other};
ghost use Rattle.pair.specs.Lock.{initialized};
ghost use Rattle.tracker.specs.Steps.{fresh, bound, element_gap, element_gaps, from_marks, three_to_one};

use crate::SoundTracker;
use crate::inner::begin::fresh;
use crate::inner::gaps::on_element_gap;
use crate::inner::speed::{bound, dit_estimate, timed};
use marks::Marks;
use pair::inner::lock::initialize;
use pair::inner::readings::three_to_one;
use ranges::Duration;

// A fresh tracker with a lock from marks.
pub(crate) fn locked(marks: Marks) -> SoundTracker
    requires { 1 ≤ length marks.at.now }
    ensures { view result.tracker ≡ bound standard (with_pair fresh (initialized standard marks.entry.at.now)) }
{
    let mut t = fresh().tracker;
    t.pair = initialize(marks);
    SoundTracker { tracker: bound(t) }
}

// A gap below 2.0 dit estimates is an element gap.
pub(crate) fn element_gap(t: SoundTracker, g: Duration) -> SoundTracker
    ensures { view result.tracker ≡ element_gap standard (view t.tracker) g.ms }
{
    if g.ms < 2.0 * dit_estimate(t.tracker) {
        on_element_gap(t, g)
    } else {
        t
    }
}

// The same for each gap.
pub(crate) fn element_gaps(t: SoundTracker, gaps: &[f32]) -> SoundTracker
    requires { AllIn duration_min duration_max gaps.now }
    ensures { view result.tracker ≡ element_gaps standard (view t.tracker) gaps.now }
{
    let mut u = t;
    for g in gaps {
        u = element_gap(u, Duration { ms: *g });
    }
    u
}

// A tracker from marks and the gaps between them, of which there may be any number.
pub fn from_marks(marks: Marks, gaps: &[f32]) -> SoundTracker
    requires any { 1 ≤ length marks.at.now }
    requires between { AllIn duration_min duration_max gaps.now }
    ensures { view result.tracker ≡ from_marks standard marks.entry.at.now gaps.now }
{
    let t = element_gaps(locked(marks), gaps);
    SoundTracker {
        tracker: timed(t.tracker),
    }
}

// The three-to-one reading of an unconfirmed lock.
pub fn three_to_one_alternative(t: SoundTracker) -> Option<SoundTracker>
    ensures { other result ≡ three_to_one standard (view t.tracker) }
{
    let pair = three_to_one(t.tracker.pair)?;
    let mut u = fresh().tracker;
    u.pair = pair;
    Some(SoundTracker {
        tracker: timed(bound(u)),
    })
}
