// A gap that is no pause: the scores, the held gap and each challenger change in one copy of the bank.
ghost use Rattle.std.specs.Prelude.{◌≡◌, T};
ghost use Rattle.std.specs.Float.Ieee.Positive.{positive};
ghost use Rattle.order.specs.Order.{larger};
ghost use Rattle.ranges.specs.Settings.{standard};
ghost use Rattle.tracker.specs.Model as Tracked;
ghost use Rattle.tracker.specs.Steps.{dit_estimate};
ghost use Rattle.bank_model.specs.Constants.{milli};
ghost use Rattle.bank_model.specs.Steps.{heard_gap};
ghost use Rattle.bank.specs.View.{view};

use crate::{OpenBank, SoundBank};
use bank_model::inner::scores::{decayed, gap_ll, gap_logs};
use ranges::Duration;
use rival::inner::each::gap_one;
use tracker::SpeedTracker;

// A gap d that is no pause, beside a primary p of unit u.
pub fn hear_space(b: OpenBank, p: SpeedTracker, u: f32, d: Duration) -> SoundBank
    requires { (u ≡ dit_estimate standard (Tracked.view p)) × T (positive (larger u milli)) }
    ensures { view result.bank ≡ heard_gap standard (view b.bank.bank) (Tracked.view p) d.ms }
{
    let k = gap_logs(d, u);
    let l = gap_ll(k.gap.ln, k.unit);
    let s = decayed(b.bank.bank.primary_score, l);
    let g = decayed(b.bank.bank.primary_gap_score, l);
    let mut c = b.bank.bank;
    c.primary_score = s;
    c.primary_gap_score = g;
    c.last_gap = Some(d.ms);
    c.gaps_seen = b.bank.bank.gaps_seen + 1;
    for i in 0..b.bank.bank.challengers_len {
        c.challengers[i] = gap_one(c.challengers[i], k.gap);
    }
    SoundBank { bank: c }
}
