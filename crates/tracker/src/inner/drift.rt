// A lock on a fragment: twelve dahs, a dit that rests on one start mark or on a seed, and no gap centroid that says dahs
// (the second test of the Rust's `check_drift`).
ghost use Rattle.std.specs.Prelude.{◌≡◌, false};
ghost use Rattle.tracker.specs.Model.{view};
ghost use Rattle.tracker.specs.Parts.{Full};
ghost use Rattle.tracker.specs.Steps.{fragment};

use crate::SpeedTracker;
use ring::inner::drift::{all_classed, gap_says_dahs};

// Whether the lock of a full ring rests on a fragment.
pub(crate) fn fragment(t: SpeedTracker) -> bool
    requires { Full t }
    ensures { result ≡ fragment (view t) }
{
    all_classed(false, &t.ring) && t.lo_uncorroborated && !gap_says_dahs(t.mu_egap_ms, &t.ring)
}
