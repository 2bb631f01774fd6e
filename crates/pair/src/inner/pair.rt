// Constraints, and how a pair learns a mark (the Rust's `apply_constraints` and `observe`).
ghost use Rattle.std.specs.Prelude.{◌≡◌, T, ◌≤◌, take, length};
ghost use Rattle.marks.specs.Lists.{all_durations};
ghost use Rattle.ranges.specs.Settings.{standard};
ghost use Rattle.pair.specs.Model.{held, view_pair};
ghost use Rattle.pair.specs.Lock.{mended, constrained, boundary, anchors_dit, anchors_dah, moved, learnt, started};

use crate::ClusterPair;
use crate::inner::lock::initialize;
use marks::Marks;
use numbers::inner::below_root;
use numbers::root::BinaryFloat;
use ranges::{Duration, within};

// The dah for a clamped dit: kept where their ratio is in its limits, else made anew by the hint or 3.0.
pub(crate) fn mended(hint: Option<f32>, lo: f32, hi: f32) -> f32
    ensures { result ≡ mended standard (held hint) lo hi }
{
    if within(hi / lo, 2.2, 6.0) {
        return hi;
    }
    hint.unwrap_or(3.0) * lo
}

// Dit and dah in their limits.
#[tactic(auto, unfolding(crate::specs::Lock::constrained))]
pub fn constrain(p: ClusterPair, hint: Option<f32>) -> ClusterPair
    ensures { (view_pair result ≡ constrained standard (held hint) (view_pair p)) × (result.init_len ≡ p.init_len) }
{
    let lo = p.lo.clamp(20.0, 150.0);
    let hi = mended(hint, lo, p.hi);
    ClusterPair { lo, hi, ..p }
}

// The geometric mean of the centroids.
pub fn boundary(p: ClusterPair) -> f32
    ensures { result ≡ boundary (view_pair p) }
{
    (p.lo * p.hi).root()
}

// Whether v is the first dit after assumed dahs.
pub(crate) fn anchors_dit(p: ClusterPair, v: f32) -> bool
    ensures { result ≡ anchors_dit (view_pair p) v }
{
    !p.confirmed && p.placeholder_is_lo && v <= 0.5 * p.hi
}

// Whether v is the first dah after assumed dits.
pub(crate) fn anchors_dah(p: ClusterPair, v: f32) -> bool
    ensures { result ≡ anchors_dah (view_pair p) v }
{
    !p.confirmed && !p.placeholder_is_lo && 2.0 * p.lo <= v
}

// The centroid on v's side moves towards v.
pub(crate) fn moved(p: ClusterPair, v: f32) -> ClusterPair
    ensures { (view_pair result ≡ moved standard (view_pair p) v) × (result.init_len ≡ p.init_len) }
{
    if below_root(v, p.lo * p.hi) {
        return ClusterPair {
            lo: p.lo + 0.15 * (v - p.lo),
            ..p
        };
    }
    ClusterPair {
        hi: p.hi + 0.15 * (v - p.hi),
        ..p
    }
}

// A ready pair learns v.
#[tactic(auto, unfolding(crate::specs::Lock::learnt))]
pub fn learn(p: ClusterPair, v: f32) -> ClusterPair
    ensures { (view_pair result ≡ learnt standard (view_pair p) v) × (result.init_len ≡ p.init_len) }
{
    if anchors_dit(p, v) {
        return ClusterPair {
            lo: v,
            confirmed: true,
            ..p
        };
    }
    if anchors_dah(p, v) {
        return ClusterPair {
            hi: v,
            confirmed: true,
            ..p
        };
    }
    moved(p, v)
}

// An unready pair keeps d, and locks at the fifth mark.
#[tactic(auto, unfolding(crate::specs::Lock::started))]
pub fn start(p: ClusterPair, d: Duration) -> ClusterPair
    requires few { (p.init_len ≤ 12) × (length (take p.init_len p.init) ≤ 4) }
    requires held { T (all_durations (take p.init_len p.init)) }
    ensures { (view_pair result ≡ started standard (view_pair p) d.ms) × (result.init_len ≤ 4) }
{
    let n = p.init_len;
    let mut q = p;
    q.init[n] = d.ms;
    if n == 4 {
        return initialize(Marks { at: &q.init[..5] });
    }
    q.init_len = n + 1;
    q
}
