// The streak of marks on one side, and the candidate that it makes (the Rust's `step_streak`).
ghost use Rattle.std.specs.Prelude.{◌≡◌, ◌<◌};
ghost use Rattle.std.specs.Float.Ieee.{le};
ghost use Rattle.ranges.specs.Settings.{standard};
ghost use Rattle.pair.specs.Model.{view_pair};
ghost use Rattle.pair.specs.Lock.{boundary};
ghost use Rattle.tracker.specs.Parts.{other};
ghost use Rattle.bank_model.specs.Model.{with_evidence};
ghost use Rattle.bank_model.specs.Steps.{goes_on, streak_on, emptied, candidate_at, streak_at};
ghost use Rattle.bank.specs.View.{before, view, told};
ghost use Rattle.bank.specs.Beats.{Runs};

use crate::inner::leave::unchanged;
use crate::inner::spawn::spawn;
use crate::{Changed, Run, SoundBank};
use bank_model::inner::scores::{centroid_logs, duplicates};
use bank_model::{LogPair, Origin};
use marks::Marks;
use numbers::root::BinaryFloat;
use pair::ClusterPair;
use ranges::Duration;
use tracker::SoundTracker;
use tracker::inner::rivals::{from_marks, three_to_one_alternative};

// Whether the mark d is at the boundary of the pair or above it.
pub fn is_high(p: ClusterPair, d: f32) -> bool
    ensures { result ≡ le (boundary (view_pair p)) d }
{
    (p.lo * p.hi).root() <= d
}

// Whether a mark on this side goes on with the streak.
pub(crate) fn goes_on(b: SoundBank, side: bool) -> bool
    ensures { result ≡ goes_on (view b.bank).evidence side }
{
    b.bank.streak_side == Some(side) && b.bank.streak_len < 4
}

// The held gap, if there is one.
pub(crate) fn held_gap(b: SoundBank) -> Option<Duration>
    ensures { before result ≡ (view b.bank).evidence.last_gap }
{
    match b.bank.last_gap {
        Some(ms) => Some(Duration { ms }),
        None => None,
    }
}

// The streak after the mark d, before which was the gap: both come to it where it goes on; else the mark begins it.
pub(crate) fn run_on(b: SoundBank, side: bool, d: Duration, gap: Option<Duration>) -> Run
    ensures { Runs (view b.bank).evidence side d.ms (before gap) result }
{
    let mut marks = b.bank.streak;
    let mut gaps = b.bank.streak_gaps;
    if !goes_on(b, side) {
        marks[0] = d.ms;
        return Run {
            marks,
            marks_len: 1,
            gaps,
            gaps_len: 0,
        };
    }
    let n = b.bank.streak_len;
    let m = b.bank.streak_gaps_len;
    marks[n] = d.ms;
    if let Some(g) = gap {
        gaps[m] = g.ms;
        return Run {
            marks,
            marks_len: n + 1,
            gaps,
            gaps_len: m + 1,
        };
    }
    Run {
        marks,
        marks_len: n + 1,
        gaps,
        gaps_len: m,
    }
}

// The same, in the bank.
pub(crate) fn grow(b: SoundBank, side: bool, d: Duration, gap: Option<Duration>) -> SoundBank
    ensures { view result.bank ≡ with_evidence (view b.bank) (streak_on (view b.bank).evidence side d.ms (before gap)) }
{
    let r = run_on(b, side, d, gap);
    let mut c = b.bank;
    // the borrow check asks for a variable between two array fields
    let marks = r.marks;
    let gaps = r.gaps;
    c.streak = marks;
    c.streak_len = r.marks_len;
    c.streak_gaps = gaps;
    c.streak_gaps_len = r.gaps_len;
    c.streak_side = Some(side);
    SoundBank { bank: c }
}

// The streak is empty again; the side is kept.
pub(crate) fn empty(b: SoundBank) -> SoundBank
    ensures { view result.bank ≡ with_evidence (view b.bank) (emptied (view b.bank).evidence) }
{
    let mut c = b.bank;
    c.streak_len = 0;
    c.streak_gaps_len = 0;
    SoundBank { bank: c }
}

// A tracker from the streak, turned to its three-to-one reading where it duplicates the primary of the logarithms p.
pub(crate) fn candidate(b: SoundBank, p: LogPair) -> Option<SoundTracker>
    requires { 0 < b.bank.streak_len }
    ensures { other result ≡ candidate_at standard p.lo p.hi (view b.bank).evidence }
{
    let marks = Marks {
        at: &b.bank.streak[..b.bank.streak_len],
    };
    let gaps = &b.bank.streak_gaps[..b.bank.streak_gaps_len];
    let t = from_marks(marks, gaps);
    if duplicates(centroid_logs(t.tracker.pair.lo, t.tracker.pair.hi), p) {
        return three_to_one_alternative(t);
    }
    Some(t)
}

// A mark of the streak, and the candidate that four make, beside a primary of the logarithms p.
pub(crate) fn step_streak(
    b: SoundBank,
    side: bool,
    p: LogPair,
    d: Duration,
    gap: Option<Duration>,
) -> Changed
    ensures { told result ≡ streak_at standard (view b.bank) p.lo p.hi side d.ms (before gap) }
{
    let c = grow(b, side, d, gap);
    if c.bank.streak_len < 4 {
        return unchanged(c);
    }
    let k = candidate(c, p);
    let e = empty(c);
    match k {
        Some(found) => spawn(e, p, found, Origin::Streak),
        None => unchanged(e),
    }
}
