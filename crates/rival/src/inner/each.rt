// What a mark, a gap or a new lead does to one challenger, and why one leaves.
ghost use Rattle.std.specs.Prelude.{◌≡◌, false, T};
ghost use Rattle.std.proofs.Math.Option.{some};
ghost use Rattle.std.specs.Float.Ieee.Positive.{positive};
ghost use Rattle.order.specs.Order.{larger};
ghost use Rattle.ranges.specs.Settings.{standard};
ghost use Rattle.tracker.specs.Model as Tracked;
ghost use Rattle.tracker.specs.Steps as Tracking;
ghost use Rattle.bank_model.specs.Constants.{milli};
ghost use Rattle.bank_model.specs.Model.{with_tracker};
ghost use Rattle.bank_model.specs.Scores.{log_of};
ghost use Rattle.bank_model.specs.Steps.{marked, gapped, led, qualifies, eligible, cause_at};
ghost use Rattle.rival.specs.View.{view_hyp};
ghost use Rattle.rival.specs.Parts.{Fit, is_none, logs_held};

use crate::TimingHypothesis;
use bank_model::inner::origins::{is_retained, tick, up_one};
use bank_model::inner::scores::{decayed, duplicates, gap_ll, log_of, mark_ll};
use bank_model::{Cause, LogPair, Measured};
use ranges::Duration;
use tracker::SoundTracker;
use tracker::inner::gaps::{on_element_gap, settle};
use tracker::inner::mark::on_mark;
use tracker::inner::speed::dit_estimate;

// The logarithms of its centroids, as it holds them.
pub fn logs_of(h: TimingHypothesis) -> LogPair
    ensures { result ≡ logs_held h }
{
    LogPair {
        lo: h.ln_lo,
        hi: h.ln_hi,
    }
}

// The logarithm of a centroid, which is known where the centroid did not change.
pub(crate) fn log_after(was: f32, ln: f32, is: f32) -> f32
    requires ln_value { ln ≡ log_of was }
    requires t { T (positive was) × (T (positive is) × T (positive (larger is milli))) }
    ensures { result ≡ log_of is }
{
    if is == was { ln } else { log_of(is) }
}

// The tracker learns a mark, and the logarithms follow.
pub fn learn_one(h: TimingHypothesis, d: Duration) -> TimingHypothesis
    requires { Fit h }
    ensures { (view_hyp result
        ≡ with_tracker (view_hyp h) (Tracking.settled (Tracking.on_mark standard (view_hyp h).tracker d.ms)))
        × Fit result }
{
    let t = SoundTracker { tracker: h.tracker };
    let v = on_mark(t, d);
    let u = settle(v).tracker;
    let p = h.tracker.pair;
    let q = u.pair;
    let lo = log_after(p.lo, h.ln_lo, q.lo);
    let hi = log_after(p.hi, h.ln_hi, q.hi);
    TimingHypothesis {
        tracker: u,
        ln_lo: lo,
        ln_hi: hi,
        ..h
    }
}

// A mark d: scored, then learnt where it is live.
pub fn mark_one(h: TimingHypothesis, d: Measured, live: bool) -> TimingHypothesis
    requires { Fit h }
    ensures { (view_hyp result ≡ marked standard d.dur.ms live (view_hyp h)) × Fit result }
{
    let l = mark_ll(d.ln, logs_of(h));
    let s = decayed(h.score, l);
    let a = up_one(h.age_marks);
    let q = tick(h.origin);
    let g = TimingHypothesis {
        score: s,
        age_marks: a,
        origin: q,
        ..h
    };
    if live { learn_one(g, d.dur) } else { g }
}

// A gap below two units is an element gap.
pub fn hear_one(t: SoundTracker, unit: f32, d: Duration) -> SoundTracker
    requires { unit ≡ Tracking.dit_estimate standard (Tracked.view t.tracker) }
    ensures { Tracked.view result.tracker ≡ Tracking.element_gap standard (Tracked.view t.tracker) d.ms }
{
    if d.ms < 2.0 * unit {
        on_element_gap(t, d)
    } else {
        t
    }
}

// A gap d.
pub fn gap_one(h: TimingHypothesis, d: Measured) -> TimingHypothesis
    requires { Fit h }
    ensures { (view_hyp result ≡ gapped standard d.dur.ms (view_hyp h)) × Fit result }
{
    let t = SoundTracker { tracker: h.tracker };
    let unit = dit_estimate(h.tracker);
    let v = log_of(unit);
    let l = gap_ll(d.ln, v);
    let s = decayed(h.score, l);
    let g = decayed(h.gap_score, l);
    let u = hear_one(t, unit, d.dur);
    TimingHypothesis {
        tracker: u.tracker,
        score: s,
        gap_score: g,
        ..h
    }
}

// The lead over the primary's score, one mark longer or lost.
pub fn lead_one(h: TimingHypothesis, score: f32) -> TimingHypothesis
    requires { Fit h }
    ensures { (view_hyp result ≡ led standard score (view_hyp h)) × Fit result }
{
    if 4.0 <= h.score - score {
        let n = up_one(h.lead_marks);
        return TimingHypothesis { lead_marks: n, ..h };
    }
    TimingHypothesis {
        lead_marks: 0,
        reported: false,
        ..h
    }
}

// Whether it may be chosen.
pub fn is_qualified(h: TimingHypothesis, gap_score: f32) -> bool
    ensures { result ≡ qualifies gap_score (view_hyp h) }
{
    2 <= h.lead_marks && 2 <= h.age_marks && gap_score < h.gap_score
}

// Whether it may be replaced.
pub fn is_eligible(h: TimingHypothesis) -> bool
    ensures { result ≡ eligible (view_hyp h) }
{
    8 <= h.age_marks && !is_retained(h.origin)
}

// Whether it stays beside a primary of the logarithms p and of this score.
pub fn is_kept(h: TimingHypothesis, p: LogPair, score: f32) -> bool
    requires { Fit h }
    ensures { result ≡ is_none (cause_at standard score p.lo p.hi (view_hyp h)) }
{
    !duplicates(logs_of(h), p)
        && (is_retained(h.origin) || score - h.score < 12.0 && h.age_marks < 64)
}

// Why it leaves, beside a primary of the logarithms p and of the score best.
pub fn why(h: TimingHypothesis, p: LogPair, best: f32) -> Cause
    requires fit { Fit h }
    requires h_value { is_none (cause_at standard best p.lo p.hi (view_hyp h)) ≡ false }
    ensures { some result ≡ cause_at standard best p.lo p.hi (view_hyp h) }
{
    if duplicates(logs_of(h), p) {
        Cause::Twin
    } else if best - h.score < 12.0 {
        Cause::Aged
    } else {
        Cause::Outscored
    }
}
