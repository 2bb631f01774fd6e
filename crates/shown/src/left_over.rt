// What a call leaves where a tracker's plain form holds no part of the state: beyond a count, and where a number is
// absent. The library's calls empty these places. These programs kept what stood there when they were first written,
// and a script can bring it to light, or make it count, by setting a count or a flag: what they print of a script stays
// what it was, so after each call they put back what was left there then.
ghost use Rattle.std.specs.Prelude.{◌≡◌, ◌++◌, take, drop};
ghost use Rattle.shown.specs.LeftOver.{Keeps, kept};

use marks::inner::sort::sort;
use plain_tracker::from::tracker_of;
use plain_tracker::{PlainEntry, PlainTracker};

// From place n on, what is left there.
fn put_back<T: Copy, const N: usize>(now: &mut [T; N], n: usize, left: &[T; N])
    ensures { now.new ≡ take n now.old ++ drop n left.now }
{
    let n = n.min(N);
    let now = &mut now[..];
    let left = &left[..];
    now[n..].copy_from_slice(&left[n..]);
}

// The state of a tracker, and beside it what is left. After a call other than the two below that is what stood there.
pub fn kept(left: &PlainTracker, now: PlainTracker) -> PlainTracker
    ensures { result ≡ kept left.now now }
{
    let mut t = now;
    put_back(&mut t.pair.init, now.pair.init_len, &left.pair.init);
    put_back(&mut t.ring, now.ring_len, &left.ring);
    put_back(&mut t.recent, now.recent_len, &left.recent);
    if now.has_wpm == 0 {
        t.wpm_ema = left.wpm_ema;
    }
    if now.has_egap == 0 {
        t.mu_egap_ms = left.mu_egap_ms;
    }
    if now.has_hint == 0 {
        t.ratio_hint = left.ratio_hint;
    }
    t
}

// After a finish: a lock leaves the start marks, sorted.
pub fn finished(was: &PlainTracker, now: PlainTracker) -> PlainTracker
    ensures { Keeps now result }
{
    let mut left = *was;
    if now.pair.ready != was.pair.ready {
        sort(&mut left.pair.init[..was.pair.init_len.min(12)]);
    }
    kept(&left, now)
}

// After a mark of x: a lock leaves its marks, sorted, the first one the five start marks.
pub fn marked(was: &PlainTracker, x: f32, now: PlainTracker) -> PlainTracker
    ensures { Keeps now result }
{
    let mut left = *was;
    if now.pair.ready != was.pair.ready {
        left.pair.init[4] = x;
        sort(&mut left.pair.init[..5]);
    }
    if now.regime != was.regime {
        left.ring = filled(was, x);
        left.pair.init = if recovers(was, x) {
            ring_marks(&left.ring)
        } else {
            recent_marks(&kept(was, now))
        };
    }
    kept(&left, now)
}

// The ring that a mark of x filled, or moved on, before its marks, all of one class, made a lock anew.
fn filled(was: &PlainTracker, x: f32) -> [PlainEntry; 12] {
    let mut ring = if was.ring_len == 12 {
        moved_on(was.ring)
    } else {
        was.ring
    };
    ring[11] = PlainEntry {
        dur_ms: x,
        assigned_dit: ring[0].assigned_dit,
        pre_lo: was.pair.lo,
        pre_hi: was.pair.hi,
        ..PlainEntry::default()
    };
    ring
}

// A full ring without its first mark.
fn moved_on(ring: [PlainEntry; 12]) -> [PlainEntry; 12] {
    let mut next = ring;
    next.rotate_left(1);
    next
}

// Whether a mark of x, which makes a lock anew, does so on a fragment, and not by drift.
fn recovers(was: &PlainTracker, x: f32) -> bool {
    let mut t = tracker_of(*was);
    t.badlock_recovered = false;
    t.on_mark(x).is_ok() && t.badlock_recovered
}

// The marks of such a lock, sorted.
fn ring_marks(ring: &[PlainEntry; 12]) -> [f32; 12] {
    let mut marks = ring.map(|e| e.dur_ms);
    sort(&mut marks);
    marks
}

// The same of one by drift: zeros stand behind them.
fn recent_marks(t: &PlainTracker) -> [f32; 12] {
    let mut marks = [0.0; 12];
    marks[..5].copy_from_slice(&t.recent);
    sort(&mut marks[..t.recent_len.min(5)]);
    marks
}
