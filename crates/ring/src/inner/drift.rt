// When the marks have drifted, or the lock rests on a fragment (the first half of the Rust's `check_drift`).
ghost use Rattle.std.specs.Prelude.{◌≡◌, not, T};
ghost use Rattle.std.specs.Float.Ieee.{is_nan};
ghost use Rattle.ranges.specs.Settings.{standard};
ghost use Rattle.pair.specs.Model.{held};
ghost use Rattle.ring.specs.Ring.{durations, classed, all_classed, uniform, anchor, offset, drifts, gap_says_dahs, ring_sound};

use crate::RingEntry;
use marks::Marks;
use marks::inner::sort::sort;

// The lengths of twelve marks.
pub fn durations(ring: &[RingEntry; 12]) -> [f32; 12]
    ensures { result ≡ durations ring.now }
{
    ring.map(|e| e.dur_ms)
}

// Whether a mark was classed a dit, or else a dah.
pub(crate) fn is_classed(dit: bool, e: RingEntry) -> bool
    ensures { result ≡ classed dit e }
{
    e.assigned_dit == dit
}

// Whether each mark was.
pub fn all_classed(dit: bool, ring: &[RingEntry]) -> bool
    ensures { result ≡ all_classed dit ring.now }
{
    ring.iter().all(|e| is_classed(dit, *e))
}

// Whether marks are twelve, of one class.
pub fn uniform(ring: &[RingEntry]) -> bool
    ensures { result ≡ uniform ring.now }
{
    12 <= ring.len() && (all_classed(true, ring) || all_classed(false, ring))
}

// The centroid of the ring's class before its first mark.
pub(crate) fn anchor(ring: &[RingEntry; 12]) -> f32
    requires { T (ring_sound standard ring.now) }
    ensures { (result ≡ anchor ring.now) × T (not (is_nan result)) }
{
    let first = ring[0];
    if all_classed(true, ring) {
        first.pre_lo
    } else {
        first.pre_hi
    }
}

// How far the mean m lies off the centroid c.
#[tactic(auto, using(order::proofs::Library::abs_law))]
pub(crate) fn offset(m: f64, c: f32) -> f64
    requires { T (not (is_nan c)) }
    ensures { result ≡ offset m c }
{
    let w = c as f64;
    (m - w).abs() / w
}

// Whether the marks of a full ring agree, and lie off the centroid before them.
pub fn drifts(ring: &[RingEntry; 12]) -> bool
    requires { T (ring_sound standard ring.now) }
    ensures { result ≡ drifts ring.now }
{
    let c = anchor(ring);
    let d = durations(ring);
    let marks = Marks { at: &d };
    let m = marks.mean_wide();
    marks.deviation(m) < 0.35 && 0.40 < offset(m, c)
}

// Whether the gap centroid says that the marks of a full ring are dahs.
pub fn gap_says_dahs(gap: Option<f32>, ring: &[RingEntry; 12]) -> bool
    ensures { result ≡ gap_says_dahs (held gap) ring.now }
{
    match gap {
        None => false,
        Some(g) => {
            let mut d = durations(ring);
            sort(&mut d);
            g < 0.577_35 * d[3]
        }
    }
}
