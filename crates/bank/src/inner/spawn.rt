// A new challenger (the Rust's `spawn`).
ghost use Rattle.std.specs.Prelude.{◌≡◌, ◌+◌, ◌<◌, true};
ghost use Rattle.ranges.specs.Settings.{standard};
ghost use Rattle.tracker.specs.Model as Tracked;
ghost use Rattle.bank_model.specs.Scores.{ln_dit, ln_dah};
ghost use Rattle.bank_model.specs.Steps.{Before, newborn, pushed, replacing, place, spawned_at};
ghost use Rattle.rival.specs.View.{view_hyp};
ghost use Rattle.rival.specs.Parts.{Fit};
ghost use Rattle.bank.specs.View.{view, told};

use crate::inner::among::{any_twin, victim};
use crate::inner::leave::unchanged;
use crate::{Changed, SoundBank};
use bank_model::inner::leaving;
use bank_model::inner::scores::{centroid_logs, duplicates};
use bank_model::{Cause, Departure, Departures, LogPair, Origin};
use rival::TimingHypothesis;
use tracker::SoundTracker;

// A challenger of the logarithms l, with the primary's scores and the next serial.
pub(crate) fn newborn(b: SoundBank, t: SoundTracker, o: Origin, l: LogPair) -> TimingHypothesis
    requires ready { t.tracker.pair.ready ≡ true }
    requires l_value { (l.lo ≡ ln_dit (Tracked.view t.tracker)) × (l.hi ≡ ln_dah (Tracked.view t.tracker)) }
    ensures { (view_hyp result ≡ newborn (view b.bank) (Tracked.view t.tracker) o) × Fit result }
{
    TimingHypothesis {
        tracker: t.tracker,
        score: b.bank.primary_score,
        gap_score: b.bank.primary_gap_score,
        lead_marks: 0,
        age_marks: 0,
        origin: o,
        reported: false,
        ln_lo: l.lo,
        ln_hi: l.hi,
        serial: b.bank.started.wrapping_add(1),
    }
}

// h comes after the others.
pub(crate) fn push(b: SoundBank, h: TimingHypothesis) -> Changed
    requires fit { Fit h }
    requires challengers_len_bound { b.bank.challengers_len + 1 < b.bank.width }
    ensures { told result ≡ pushed (view b.bank) (view_hyp h) }
{
    let mut c = b.bank;
    c.challengers[b.bank.challengers_len] = h;
    c.challengers_len = b.bank.challengers_len + 1;
    c.started = b.bank.started.wrapping_add(1);
    unchanged(SoundBank { bank: c })
}

// h comes in the place of another, where one was found.
pub(crate) fn replace(b: SoundBank, v: Option<(usize, f32)>, h: TimingHypothesis) -> Changed
    requires fit { Fit h }
    requires before { Before b.bank.challengers_len v }
    ensures { told result ≡ replacing (view b.bank) (view_hyp h) (place v) }
{
    match v {
        None => unchanged(b),
        Some((i, _)) => {
            let mut gone = Departures::none();
            let d = Departure {
                serial: b.bank.challengers[i].serial,
                cause: Cause::Replaced,
            };
            leaving::push(&mut gone, d);
            let mut c = b.bank;
            c.challengers[i] = h;
            c.started = b.bank.started.wrapping_add(1);
            Changed {
                bank: SoundBank { bank: c },
                gone,
            }
        }
    }
}

// t comes into a bank whose primary has the logarithms p, unless it duplicates one that is there, or has no place.
pub(crate) fn spawn(b: SoundBank, p: LogPair, t: SoundTracker, o: Origin) -> Changed
    requires { t.tracker.pair.ready ≡ true }
    ensures { told result ≡ spawned_at (view b.bank) p.lo p.hi o (Tracked.view t.tracker) }
{
    let l = centroid_logs(t.tracker.pair.lo, t.tracker.pair.hi);
    if duplicates(l, p) || any_twin(b, l) {
        return unchanged(b);
    }
    let h = newborn(b, t, o, l);
    if b.bank.challengers_len + 1 < b.bank.width {
        return push(b, h);
    }
    let v = victim(b);
    replace(b, v, h)
}
