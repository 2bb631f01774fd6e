// The other reading of a bootstrap (the Rust's `on_ready`).
ghost use Rattle.std.specs.Prelude.{◌≡◌, ◌-◌, ◌<◌, ◌≤◌, ◌&&◌, [], length, take, nat_eq, nat_le};
ghost use Rattle.ranges.specs.Settings.{standard};
ghost use Rattle.tracker.specs.Model as Tracked;
ghost use Rattle.tracker.specs.Parts.{other};
ghost use Rattle.tracker.specs.Steps.{from_marks};
ghost use Rattle.bank_model.specs.Steps.{least_place, without, on_ready};
ghost use Rattle.bank_model.specs.Steps as Steps;
ghost use Rattle.bank.specs.View.{view, told};

use crate::inner::leave::unchanged;
use crate::inner::spawn::spawn;
use crate::{Changed, SoundBank};
use bank_model::Origin;
use bank_model::inner::scores::centroid_logs;
use marks::Marks;
use order::total_less32;
use tracker::inner::rivals::{from_marks, three_to_one_alternative};
use tracker::{SoundTracker, SpeedTracker};

// The place of the first least of some marks.
pub(crate) fn least_place(marks: &[f32]) -> usize
    requires { 0 < length marks.now }
    ensures { result ≡ least_place marks.now }
{
    let mut best: usize = 0;
    let mut low = marks[0];
    for (i, x) in marks.iter().enumerate() {
        if total_less32(*x, low) {
            best = i;
            low = *x;
        }
    }
    best
}

// All marks but the k-th, at the head of an array.
pub(crate) fn others(marks: &[f32], k: usize) -> [f32; 12]
    requires { (length marks.now ≤ 12) × (k < length marks.now) }
    ensures { take (length marks.now - 1) result ≡ without k marks.now }
{
    let n = marks.len() - 1;
    let mut out = [0.0; 12];
    out[..k].copy_from_slice(&marks[..k]);
    out[k..n].copy_from_slice(&marks[k + 1..]);
    out
}

// Whether a lock's dit rests on one mark of three or more.
pub(crate) fn is_lone(p: SpeedTracker, n: usize) -> bool
    ensures { result ≡ (nat_eq p.pair.lo_n 1 && nat_le 3 n) }
{
    p.pair.lo_n == 1 && 3 <= n
}

// A tracker from all marks but the first least.
pub(crate) fn from_others(marks: Marks) -> SoundTracker
    requires { 3 ≤ length marks.at.now }
    ensures { Tracked.view result.tracker
        ≡ from_marks standard (without (least_place marks.entry.at.now) marks.entry.at.now) [] }
{
    let k = least_place(marks.at);
    let rest = others(marks.at, k);
    let n = marks.at.len() - 1;
    let others = Marks { at: &rest[..n] };
    from_marks(others, &[])
}

// The other reading of the primary p, which was locked from marks.
pub(crate) fn other_reading(p: SoundTracker, marks: Marks) -> Option<SoundTracker>
    ensures { other result ≡ Steps.other standard (Tracked.view p.tracker) marks.entry.at.now }
{
    if !p.tracker.pair.confirmed {
        return three_to_one_alternative(p);
    }
    if is_lone(p.tracker, marks.at.len()) {
        return Some(from_others(marks));
    }
    None
}

// The primary p just became ready from marks: its other reading comes into the bank.
pub fn on_ready(b: SoundBank, p: SoundTracker, marks: Marks) -> Changed
    ensures { told result ≡ on_ready standard (view b.bank) (Tracked.view p.tracker) marks.entry.at.now }
{
    if b.bank.width < 2 {
        return unchanged(b);
    }
    match other_reading(p, marks) {
        Some(t) => {
            let l = centroid_logs(p.tracker.pair.lo, p.tracker.pair.hi);
            spawn(b, l, t, Origin::Bootstrap)
        }
        None => unchanged(b),
    }
}
