// Other readings of a pair: a seed, assumed dits as dahs, the three-to-one reading.
ghost use Rattle.std.specs.Prelude.{◌≡◌, T, ◌≤◌, cond, IfSome, None, Some, option_map};
ghost use Rattle.ranges.specs.Settings.{standard};
ghost use Rattle.pair.specs.Model.{view_pair};
ghost use Rattle.pair.specs.Readings.{seed_pair, unsure, gaps_say_dahs, turned, other_pair, has_other};
ghost use Rattle.pair.specs.Sound.{pair_sound};

use crate::ClusterPair;
use crate::inner::lock::ASSUMED;
use marks::inner::band::banded;
use marks::{Gaps, Marks};
use order::is_finite32;
use ranges::within;

// A lock on the dit of a seed.
pub fn seed_pair(dit: f32) -> ClusterPair
    ensures { (view_pair result ≡ seed_pair dit) × (result.init_len ≤ 12) }
{
    ClusterPair {
        lo: dit,
        hi: 3.0 * dit,
        confirmed: true,
        ..ASSUMED
    }
}

// Whether the lock is on assumed dits of 60 ms at least.
pub(crate) fn unsure(p: ClusterPair) -> bool
    ensures { result ≡ unsure standard (view_pair p) }
{
    p.ready && !p.confirmed && !p.placeholder_is_lo && is_finite32(p.lo) && !(p.lo < 3.0 * 20.0)
}

// Whether the gaps say that the assumed dits are dahs.
pub fn says_dahs(p: ClusterPair, gaps: Gaps) -> bool
    requires { T (pair_sound standard (view_pair p)) }
    ensures { result ≡ gaps_say_dahs standard (view_pair p) gaps.entry.at.now }
{
    if !unsure(p) {
        return false;
    }
    let kept = banded(p.lo, gaps);
    let kept_gaps = Marks {
        at: &kept.at[..kept.len],
    };
    kept_gaps.agree()
}

// What was taken for the dit is the dah.
pub fn turned(p: ClusterPair) -> ClusterPair
    ensures { (view_pair result ≡ turned (view_pair p)) × (result.init_len ≡ p.init_len) }
{
    ClusterPair {
        lo: p.lo / 3.0,
        hi: p.lo,
        confirmed: false,
        placeholder_is_lo: true,
        ..p
    }
}

// The pair of the three-to-one reading.
pub fn other_pair(p: ClusterPair) -> ClusterPair
    ensures { (view_pair result ≡ other_pair (view_pair p)) × (result.init_len ≤ 12) }
{
    if p.placeholder_is_lo {
        return ClusterPair {
            lo: p.hi,
            hi: 3.0 * p.hi,
            ..ASSUMED
        };
    }
    ClusterPair {
        lo: p.lo / 3.0,
        hi: p.lo,
        placeholder_is_lo: true,
        ..ASSUMED
    }
}

// Whether a pair has a three-to-one reading whose dit is in its limits.
pub fn has_other(p: ClusterPair) -> bool
    ensures { result ≡ has_other standard (view_pair p) }
{
    p.ready && !p.confirmed && within(other_pair(p).lo, 20.0, 150.0)
}

// The three-to-one reading of an unconfirmed lock, where its dit is in its limits.
pub fn three_to_one(p: ClusterPair) -> Option<ClusterPair>
    ensures is { option_map view_pair result ≡
        cond (has_other standard (view_pair p)) (Some (other_pair (view_pair p))) None }
    ensures counted { IfSome result (λ q. q.init_len ≤ 12) }
{
    if has_other(p) {
        Some(other_pair(p))
    } else {
        None
    }
}
