// Who leaves: `prune`, and what a clear tells.
ghost use Rattle.std.specs.Prelude.{◌≡◌, ◌≤◌, false, map, length};
ghost use Rattle.std.proofs.Math.Option.{some};
ghost use Rattle.ranges.specs.Settings.{standard};
ghost use Rattle.bank_model.specs.Departures.{most_left};
ghost use Rattle.bank_model.specs.Left.{those};
ghost use Rattle.bank_model.specs.Model.{stay, and_then};
ghost use Rattle.bank_model.specs.Steps.{cause_at, pruned_at, leading, gone_cleared};
ghost use Rattle.rival.specs.View.{view_hyp};
ghost use Rattle.rival.specs.Parts.{Fit, is_none};
ghost use Rattle.bank.specs.View.{view, told};

use crate::inner::among::{better, place_of};
use crate::{Changed, SoundBank};
use bank_model::inner::leaving;
use bank_model::{Cause, Departure, Departures, LogPair};
use rival::TimingHypothesis;
use rival::inner::each::{is_kept, lead_one, why};

// A bank that no one left.
pub fn unchanged(b: SoundBank) -> Changed
    ensures { told result ≡ stay (view b.bank) }
{
    Changed {
        bank: b,
        gone: Departures::none(),
    }
}

// What is told of a challenger that leaves a bank whose primary has the logarithms p and the score best.
pub(crate) fn gone(h: TimingHypothesis, p: LogPair, best: f32) -> Departure
    requires fit { Fit h }
    requires h_value { is_none (cause_at standard best p.lo p.hi (view_hyp h)) ≡ false }
    ensures { (result.serial ≡ h.serial) × (some result.cause ≡ cause_at standard best p.lo p.hi (view_hyp h)) }
{
    Departure {
        serial: h.serial,
        cause: why(h, p, best),
    }
}

// Twins, then the outscored and the aged that nothing protects, leave a bank whose primary has the logarithms p. Of
// those that stay, leads are one mark longer or lost, and the choice is made among those that qualify.
pub(crate) fn prune(t: Changed, p: LogPair) -> Changed
    requires { length (and_then (told t) (pruned_at standard p.lo p.hi)).left ≤ most_left }
    ensures { told result ≡ leading standard (and_then (told t) (pruned_at standard p.lo p.hi)) }
{
    let mut c = t.bank.bank;
    let mut left = t.gone;
    let score = c.primary_score;
    let gap_score = c.primary_gap_score;
    let n = c.challengers_len;
    let mut best: Option<(usize, f32)> = None;
    let mut w: usize = 0;
    // by place, since those that stay are moved down in the array that is read
    for i in 0..n {
        let h = c.challengers[i];
        if !is_kept(h, p, score) {
            let d = gone(h, p, score);
            leaving::push(&mut left, d);
            continue;
        }
        let e = lead_one(h, score);
        best = better(w, e, gap_score, best);
        c.challengers[w] = e;
        w += 1;
    }
    c.challengers_len = w;
    c.pending = place_of(best);
    Changed {
        bank: SoundBank { bank: c },
        gone: left,
    }
}

// All challengers, as those that a clear sends away.
pub(crate) fn all_cleared(b: SoundBank) -> Departures
    ensures { those result ≡ map gone_cleared (view b.bank).challengers }
{
    let mut left = Departures::none();
    for h in &b.bank.challengers[..b.bank.challengers_len] {
        let d = Departure {
            serial: h.serial,
            cause: Cause::Cleared,
        };
        leaving::push(&mut left, d);
    }
    left
}
