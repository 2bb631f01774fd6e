// A lock from marks (document 01: "At the fifth mark, sort .."; the Rust's `initialize`).
ghost use Rattle.std.specs.Prelude.{◌≡◌, ◌≤◌, length};
ghost use Rattle.ranges.specs.Settings.{standard};
ghost use Rattle.pair.specs.Model.{view_pair};
ghost use Rattle.pair.specs.Lock.{bimodal, unimodal, locked, initialized};

use crate::ClusterPair;
use marks::Marks;
use marks::inner::cut::split;
use marks::inner::places::copied;
use marks::inner::sort::sort;

// A lock whose centroids are still to be set: on assumed dits, and with no start marks.
pub(crate) const ASSUMED: ClusterPair = ClusterPair {
    lo: 0.0,
    hi: 0.0,
    init: [0.0; 12],
    init_len: 0,
    ready: true,
    confirmed: false,
    placeholder_is_lo: false,
    lo_n: 0,
};

// Two lengths: a lock on their means.
pub(crate) fn bimodal(sorted: Marks) -> ClusterPair
    requires { 2 ≤ length sorted.at.now }
    ensures { (view_pair result ≡ bimodal sorted.entry.at.now) × (result.init_len ≡ 0) }
{
    let h = split(sorted);
    ClusterPair {
        lo: h.lo,
        hi: h.hi,
        confirmed: true,
        lo_n: h.cut,
        ..ASSUMED
    }
}

// One length only, of mean m: dahs above 150, else dits.
pub(crate) fn unimodal(m: f32) -> ClusterPair
    ensures { (view_pair result ≡ unimodal standard m) × (result.init_len ≡ 0) }
{
    if 150.0 < m {
        return ClusterPair {
            lo: m / 3.0,
            hi: m,
            placeholder_is_lo: true,
            ..ASSUMED
        };
    }
    ClusterPair {
        lo: m,
        hi: 3.0 * m,
        ..ASSUMED
    }
}

// A lock from sorted marks.
#[tactic(auto, unfolding(crate::specs::Lock::locked))]
pub(crate) fn locked(sorted: Marks) -> ClusterPair
    requires { 1 ≤ length sorted.at.now }
    ensures { (view_pair result ≡ locked standard sorted.entry.at.now) × (result.init_len ≡ 0) }
{
    let last = sorted.at.len() - 1;
    if 2.0 <= sorted.at[last] / sorted.at[0] {
        return bimodal(sorted);
    }
    unimodal(sorted.mean())
}

// A lock from marks.
pub fn initialize(marks: Marks) -> ClusterPair
    requires { 1 ≤ length marks.at.now }
    ensures { (view_pair result ≡ initialized standard marks.entry.at.now) × (result.init_len ≡ 0) }
{
    let n = marks.at.len();
    let mut s = copied(marks.at);
    sort(&mut s[..n]);
    locked(Marks { at: &s[..n] })
}
