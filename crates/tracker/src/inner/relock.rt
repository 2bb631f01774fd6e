// A new lock after drift or on a fragment (the second half of the Rust's `check_drift`).
ghost use Rattle.std.specs.Prelude.{◌≡◌, ◌≤◌, length};
ghost use Rattle.ranges.specs.Settings.{standard};
ghost use Rattle.tracker.specs.Model.{view};
ghost use Rattle.tracker.specs.Parts.{Counted, Full, Checkable};
ghost use Rattle.tracker.specs.Steps.{relocked, drifted, recovered_by, checked};

use crate::SpeedTracker;
use crate::inner::drift::fragment;
use crate::inner::speed::{bound, timed};
use marks::Marks;
use pair::inner::lock::initialize;
use ring::inner::drift::{drifts, durations, uniform};

// A lock from marks; nothing of the old speed stays.
pub(crate) fn relock(t: SpeedTracker, marks: Marks) -> SpeedTracker
    requires counted { Counted t }
    requires any { 1 ≤ length marks.at.now }
    ensures { (view result ≡ relocked standard (view t) marks.entry.at.now) × Counted result }
{
    let mut u = t;
    u.pair = initialize(marks);
    let mut v = bound(u);
    v.ring_len = 0;
    v.mu_egap_ms = None;
    v.regime = t.regime.wrapping_add(1);
    v.lo_uncorroborated = false;
    v
}

// Drift: a lock from the recent marks.
pub(crate) fn drifted(t: SpeedTracker) -> SpeedTracker
    requires { Checkable t }
    ensures { (view result ≡ drifted standard (view t)) × Counted result }
{
    let recent = Marks {
        at: &t.recent[..t.recent_len],
    };
    relock(t, recent)
}

// A fragment: a lock from the twelve marks of the ring.
pub(crate) fn recovered(t: SpeedTracker) -> SpeedTracker
    requires counted { Counted t }
    requires full { Full t }
    ensures { (view result ≡ recovered_by standard (view t)) × Counted result }
{
    let ring = durations(&t.ring);
    let mut u = relock(t, Marks { at: &ring });
    u.badlock_recovered = true;
    timed(u)
}

// Drift before recovery.
pub(crate) fn check(t: SpeedTracker) -> SpeedTracker
    requires { Checkable t }
    ensures { (view result ≡ checked standard (view t)) × Counted result }
{
    if uniform(&t.ring[..t.ring_len]) {
        if drifts(&t.ring) {
            return drifted(t);
        }
        if fragment(t) {
            return recovered(t);
        }
    }
    t
}
