// What each event does to a station that is sound (document 01, "Station").
ghost use Rattle.std.specs.Prelude.{false, T};
ghost use Rattle.std.specs.Float.Ieee.Positive.{positive};
ghost use Rattle.ranges.specs.Settings.{standard};
ghost use Rattle.tracker.specs.Model as Tracked;
ghost use Rattle.bank.specs.Switching.{Chosen};
ghost use Rattle.station_model.specs.declared.Event.TheVariants.{Mark, Gap, Finish, Seed, Hint, Clear, Switch};
ghost use Rattle.station_model.specs.Station.{accepted, acted, learnt_act, live_act, ready_act};
ghost use Rattle.station.specs.View.{view};
ghost use Rattle.station.specs.Parts.{Allowed, Stands};

use crate::Outcome;
use crate::inner::accept::{accept, done};
use crate::inner::after::{after_gap, after_hint, after_switch, switching};
use crate::inner::open::OpenStation;
use bank::inner::clear::clear;
use bank::inner::leave::unchanged;
use bank::inner::mark as heard;
use bank::inner::ready::on_ready;
use marks::Marks;
use ranges::Duration;
use station_model::{Code, Event};
use tracker::SoundTracker;
use tracker::inner::begin::{begun, seed_wpm};
use tracker::inner::mark as learnt;

// The primary became ready, and is p: the bank hears of it, with the recent marks, oldest first.
pub(crate) fn begin(s: &OpenStation, p: SoundTracker) -> Outcome
    ensures { Stands result
        (accepted (view s.now.station) (ready_act standard (view s.now.station) (Tracked.view p.tracker))) }
{
    let recent = Marks {
        at: &p.tracker.recent[..p.tracker.recent_len],
    };
    let t = on_ready(s.bank().bank, p, recent);
    accept(s, p, s.station.serial, t, Code::BecameReady)
}

// The primary was unready and has learnt a mark, and is p.
pub(crate) fn learn(s: &OpenStation, p: SoundTracker) -> Outcome
    ensures { Stands result
        (accepted (view s.now.station) (learnt_act standard (view s.now.station) (Tracked.view p.tracker))) }
{
    if p.tracker.pair.ready {
        return begin(s, p);
    }
    let t = unchanged(s.bank().bank);
    accept(s, p, s.station.serial, t, Code::Done)
}

// A live mark: the primary learns it; where it was ready, the bank hears it then.
pub(crate) fn live_mark(s: &OpenStation, d: Duration) -> Outcome
    ensures { Stands result (accepted (view s.now.station) (live_act standard (view s.now.station) d.ms)) }
{
    let p = s.primary();
    let q = learnt::on_mark(p, d);
    if p.tracker.pair.ready {
        let t = heard::on_mark(s.bank(), q, d, true);
        return accept(s, q, s.station.serial, t, Code::Done);
    }
    learn(s, q)
}

// A mark that is not live: only the bank hears it.
pub(crate) fn silent_mark(s: &OpenStation, d: Duration) -> Outcome
    ensures { Stands result (accepted (view s.now.station) (acted standard (view s.now.station) (Mark d.ms false))) }
{
    let p = s.primary();
    let t = heard::on_mark(s.bank(), p, d, false);
    accept(s, p, s.station.serial, t, Code::Done)
}

// A gap, beside a ready primary: the bank hears it, then the primary, where it is an element gap.
pub(crate) fn gap(s: &OpenStation, d: Duration) -> Outcome
    ensures { Stands result (accepted (view s.now.station) (acted standard (view s.now.station) (Gap d.ms))) }
{
    let t = after_gap(s, d);
    done(t, Code::Done)
}

// A finish.
pub(crate) fn finish(s: &OpenStation) -> Outcome
    ensures { Stands result (accepted (view s.now.station) (acted standard (view s.now.station) Finish)) }
{
    let p = s.primary();
    if let Some(q) = begun(p) {
        return begin(s, q);
    }
    let t = unchanged(s.bank().bank);
    accept(s, p, s.station.serial, t, Code::Nothing)
}

// A seed: the primary takes it, and the bank is cleared.
pub(crate) fn seed(s: &OpenStation, wpm: f32) -> Outcome
    requires { T (positive wpm) }
    ensures { Stands result (accepted (view s.now.station) (acted standard (view s.now.station) (Seed wpm))) }
{
    let p = s.primary();
    let q = seed_wpm(p, wpm);
    let t = clear(s.bank().bank);
    let code = if p.tracker.pair.ready {
        Code::Done
    } else {
        Code::BecameReady
    };
    accept(s, q, s.station.serial, t, code)
}

// A hint, of the primary alone.
pub(crate) fn hint(s: &OpenStation, ratio: f32) -> Outcome
    ensures { Stands result (accepted (view s.now.station) (acted standard (view s.now.station) (Hint ratio))) }
{
    let t = after_hint(s, ratio);
    done(t, Code::Done)
}

// A clear, of the bank alone.
pub(crate) fn clear_all(s: &OpenStation) -> Outcome
    ensures { Stands result (accepted (view s.now.station) (acted standard (view s.now.station) Clear)) }
{
    let t = clear(s.bank().bank);
    accept(s, s.primary(), s.station.serial, t, Code::Done)
}

// A switch.
pub(crate) fn switch(s: &OpenStation) -> Outcome
    requires { Chosen s.now.station.bank s.now.station.primary }
    ensures { Stands result (accepted (view s.now.station) (acted standard (view s.now.station) Switch)) }
{
    let t = after_switch(s);
    let code = switching(s.station.serial, t.serial);
    done(t, code)
}

// A mark, live or not.
pub(crate) fn mark(s: &OpenStation, d: Duration, live: bool) -> Outcome
    ensures { Stands result (accepted (view s.now.station) (acted standard (view s.now.station) (Mark d.ms live))) }
{
    if live {
        live_mark(s, d)
    } else {
        silent_mark(s, d)
    }
}

// What an event does.
pub fn step(s: &OpenStation, e: Event) -> Outcome
    requires { Allowed s.now.station e }
    ensures { Stands result (accepted (view s.now.station) (acted standard (view s.now.station) e)) }
{
    match e {
        Event::Mark { dur_ms, live } => mark(s, Duration { ms: dur_ms }, live),
        Event::Gap(dur_ms) => gap(s, Duration { ms: dur_ms }),
        Event::Finish => finish(s),
        Event::Seed(wpm) => seed(s, wpm),
        Event::Hint(ratio) => hint(s, ratio),
        Event::Clear => clear_all(s),
        Event::Switch => switch(s),
    }
}
