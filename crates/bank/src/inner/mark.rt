// One mark (the Rust's `on_mark`).
ghost use Rattle.std.specs.Prelude.{◌≡◌, true, ◌&&◌, nat_le};
ghost use Rattle.ranges.specs.Settings.{standard};
ghost use Rattle.tracker.specs.Model as Tracked;
ghost use Rattle.bank_model.specs.Scores.{ln_dit, ln_dah};
ghost use Rattle.bank_model.specs.Steps.{scored, marked_told, heard_mark, on_mark};
ghost use Rattle.bank.specs.View.{view, told};

use crate::inner::every::mark_all;
use crate::inner::leave::{prune, unchanged};
use crate::inner::streak::{held_gap, is_high, step_streak};
use crate::{Changed, OpenBank, SoundBank};
use bank_model::inner::scores::{centroid_logs, decayed, mark_ll};
use bank_model::{LogPair, Measured};
use ranges::Duration;
use tracker::{SoundTracker, SpeedTracker};

// The mark d, beside a primary p of the logarithms l: each score, and the held gap taken out.
pub(crate) fn score_all(
    b: OpenBank,
    p: SpeedTracker,
    l: LogPair,
    d: Duration,
    live: bool,
) -> SoundBank
    requires { (l.lo ≡ ln_dit (Tracked.view p)) × (l.hi ≡ ln_dah (Tracked.view p)) }
    ensures { view result.bank ≡ scored standard (view b.bank.bank) (Tracked.view p) d.ms live }
{
    let m = Measured::of(d);
    let s = decayed(b.bank.bank.primary_score, mark_ll(m.ln, l));
    let mut c = mark_all(b.bank, m, live).bank;
    c.primary_score = s;
    c.last_gap = None;
    c.marks_seen = b.bank.bank.marks_seen + 1;
    SoundBank { bank: c }
}

// The same, and the candidate of a live streak.
pub(crate) fn score_mark(
    b: OpenBank,
    p: SpeedTracker,
    l: LogPair,
    d: Duration,
    live: bool,
) -> Changed
    requires { (l.lo ≡ ln_dit (Tracked.view p)) × (l.hi ≡ ln_dah (Tracked.view p)) }
    ensures { told result ≡ marked_told standard (view b.bank.bank) (Tracked.view p) d.ms live }
{
    let c = score_all(b, p, l, d, live);
    if live {
        return step_streak(c, is_high(p.pair, d.ms), l, d, held_gap(b.bank));
    }
    unchanged(c)
}

// A mark that is heard: scores, candidate, prune, choice.
pub(crate) fn hear_mark(b: OpenBank, p: SoundTracker, d: Duration, live: bool) -> Changed
    requires { p.tracker.pair.ready ≡ true }
    ensures { told result ≡ heard_mark standard (view b.bank.bank) (Tracked.view p.tracker) d.ms live }
{
    let l = centroid_logs(p.tracker.pair.lo, p.tracker.pair.hi);
    let t = score_mark(b, p.tracker, l, d, live);
    prune(t, l)
}

// Whether a bank of this width hears anything beside a primary that is ready or not.
pub(crate) fn hears(width: usize, ready: bool) -> bool
    ensures { result ≡ (nat_le 2 width && ready) }
{
    2 <= width && ready
}

// One mark, beside the primary p, which has learnt it.
pub fn on_mark(b: OpenBank, p: SoundTracker, d: Duration, live: bool) -> Changed
    ensures { told result ≡ on_mark standard (view b.bank.bank) (Tracked.view p.tracker) d.ms live }
{
    if hears(b.bank.bank.width, p.tracker.pair.ready) {
        return hear_mark(b, p, d, live);
    }
    unchanged(b.bank)
}
