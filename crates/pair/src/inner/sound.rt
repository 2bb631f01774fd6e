// Whether a pair is sound (document 01, refusal 1).
ghost use Rattle.std.specs.Prelude.{◌≡◌, ◌≤◌};
ghost use Rattle.ranges.specs.Settings.{standard};
ghost use Rattle.marks.specs.Lists.{all_durations};
ghost use Rattle.pair.specs.Model.{view_pair};
ghost use Rattle.pair.specs.Sound.{centroids, plus_zero, waiting, pair_settled, pair_sound};

use crate::ClusterPair;
use order::negative32;
use ranges::{is_duration, within};

// Whether both centroids lie in their ranges.
pub fn are_centroids(lo: f32, hi: f32) -> bool
    ensures { result ≡ centroids standard lo hi }
{
    within(lo, 20.0, 150.0) && within(hi, 16.0, 2500.0)
}

// Whether x is +0.
pub(crate) fn is_plus_zero(x: f32) -> bool
    ensures { result ≡ plus_zero x }
{
    x == 0.0 && !negative32(x)
}

// Whether an unready pair has no centroids and at most 4 start marks.
pub(crate) fn is_waiting(p: ClusterPair) -> bool
    ensures { result ≡ waiting (view_pair p) }
{
    is_plus_zero(p.lo) && is_plus_zero(p.hi) && p.init_len <= 4
}

// Whether the centroids of a pair are those of its state.
pub(crate) fn is_settled(p: ClusterPair) -> bool
    ensures { result ≡ pair_settled standard (view_pair p) }
{
    if p.ready {
        return are_centroids(p.lo, p.hi);
    }
    is_waiting(p)
}

// Whether each start mark is a duration.
pub(crate) fn are_start_marks(p: ClusterPair) -> bool
    ensures { result ≡ all_durations (view_pair p).init }
{
    p.init.iter().take(p.init_len).all(|x| is_duration(*x))
}

// Whether a pair is sound.
pub fn is_pair_sound(p: ClusterPair) -> bool
    ensures { result ≡ pair_sound standard (view_pair p) }
{
    is_settled(p) && are_start_marks(p)
}
