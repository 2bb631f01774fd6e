// One mark (the Rust's `on_mark`).
ghost use Rattle.std.specs.Prelude.{◌≡◌};
ghost use Rattle.ranges.specs.Settings.{standard};
ghost use Rattle.tracker.specs.Model.{view};
ghost use Rattle.tracker.specs.Parts.{Counted};
ghost use Rattle.tracker.specs.Steps.{opened, on_mark};

use crate::inner::relock::check;
use crate::inner::speed::{averaged, bound, speed, spoken};
use crate::{SoundTracker, SpeedTracker};
use marks::List;
use marks::inner::places::push;
use pair::inner::pair::{constrain, learn, start};
use ranges::Duration;
use ring::inner::drift::uniform;
use ring::inner::push::entry;

// A tracker that was not ready has kept a mark: where it locked, constraints and speed.
pub(crate) fn open(u: SpeedTracker) -> SpeedTracker
    requires { Counted u }
    ensures { (view result ≡ opened standard (view u)) × Counted result }
{
    if !u.pair.ready {
        return u;
    }
    let mut v = u;
    v.lo_uncorroborated = u.pair.lo_n == 1;
    spoken(bound(v))
}

// One mark: one copy of the tracker changes.
pub(crate) fn marked(s: SoundTracker, d: Duration) -> SpeedTracker
    ensures { (view result ≡ on_mark standard (view s.tracker) d.ms) × Counted result }
{
    let t = s.tracker;
    let at = t.recent;
    let last = List {
        at,
        len: t.recent_len,
    };
    let recent = push(last, d.ms);
    let at = recent.at;
    let mut u = t;
    u.recent = at;
    u.recent_len = recent.len;
    if !t.pair.ready {
        u.pair = start(t.pair, d);
        return open(u);
    }
    let q = constrain(learn(t.pair, d.ms), t.ratio_hint);
    u.pair = q;
    let e = entry(t.pair, q, d.ms);
    u.lo_uncorroborated = t.lo_uncorroborated && !e.assigned_dit;
    if t.ring_len < 12 {
        u.ring[t.ring_len] = e;
        u.ring_len = t.ring_len + 1;
        return spoken(check(u));
    }
    u.ring.rotate_left(1);
    u.ring[11] = e;
    if uniform(&u.ring) {
        return spoken(check(u));
    }
    u.wpm_ema = Some(averaged(t.wpm_ema, speed(q.lo, t.mu_egap_ms)));
    u
}

// One mark: a sound tracker learns d and stays sound.
pub fn on_mark(t: SoundTracker, d: Duration) -> SoundTracker
    ensures { view result.tracker ≡ on_mark standard (view t.tracker) d.ms }
{
    SoundTracker {
        tracker: marked(t, d),
    }
}
