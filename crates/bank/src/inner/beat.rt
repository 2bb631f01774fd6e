// A live mark that makes no candidate: each challenger hears it, leaves or stays, and may be chosen, in one loop. It is
// not `prune` after `mark_all`, since a host's loop over many marks needs the change in one pass and in place.
ghost use Rattle.std.specs.Prelude.{◌≡◌, ◌<◌, true};
ghost use Rattle.ranges.specs.Settings.{standard};
ghost use Rattle.tracker.specs.Model as Tracked;
ghost use Rattle.bank_model.specs.Scores.{ln_dit, ln_dah};
ghost use Rattle.bank_model.specs.Steps.{high, heard_mark};
ghost use Rattle.bank.specs.View.{view, told};

use crate::inner::among::{better, place_of};
use crate::inner::leave::gone;
use crate::inner::streak::{held_gap, run_on};
use crate::{Changed, OpenBank, SoundBank};
use bank_model::inner::leaving;
use bank_model::inner::scores::{decayed, mark_ll};
use bank_model::{Departures, LogPair, Measured};
use ranges::Duration;
use rival::inner::each::{is_kept, lead_one, mark_one};
use tracker::SpeedTracker;

// A live mark d that makes no candidate, beside a primary p of the logarithms l.
pub fn hear_beat(b: OpenBank, p: SpeedTracker, side: bool, l: LogPair, d: Duration) -> Changed
    requires l_value { (l.lo ≡ ln_dit (Tracked.view p)) × (l.hi ≡ ln_dah (Tracked.view p)) }
    requires side_value { (side ≡ high (Tracked.view p) d.ms) × (b.bank.bank.streak_len < 3) }
    ensures { told result ≡ heard_mark standard (view b.bank.bank) (Tracked.view p) d.ms true }
{
    let m = Measured::of(d);
    let score = decayed(b.bank.bank.primary_score, mark_ll(m.ln, l));
    let run = run_on(b.bank, side, d, held_gap(b.bank));
    let mut c = b.bank.bank;
    c.primary_score = score;
    // the borrow check asks for a variable between two array fields
    let marks = run.marks;
    let gaps = run.gaps;
    c.streak = marks;
    c.streak_len = run.marks_len;
    c.streak_gaps = gaps;
    c.streak_gaps_len = run.gaps_len;
    c.streak_side = Some(side);
    c.last_gap = None;
    c.marks_seen = b.bank.bank.marks_seen + 1;
    let mut left = Departures::none();
    let mut best: Option<(usize, f32)> = None;
    let mut w: usize = 0;
    // by place, since those that stay are moved down in the array that is read
    for i in 0..b.bank.bank.challengers_len {
        let h = mark_one(c.challengers[i], m, true);
        if !is_kept(h, l, score) {
            let d = gone(h, l, score);
            leaving::push(&mut left, d);
            continue;
        }
        let e = lead_one(h, score);
        best = better(w, e, b.bank.bank.primary_gap_score, best);
        c.challengers[w] = e;
        w += 1;
    }
    c.challengers_len = w;
    c.pending = place_of(best);
    Changed {
        bank: SoundBank { bank: c },
        gone: left,
    }
}
