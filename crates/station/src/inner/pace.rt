// For a loop over many events: whether the next one can go a short way, on which little of the station is copied, and each
// short way. (`Steady` stays a clause of these and of `next`: a type that carried it would be what a loop holds, to be taken
// apart and made anew round each call.)
ghost use Rattle.std.specs.Prelude.{◌≡◌, ◌&&◌, nat_le};
ghost use Rattle.station_model.specs.declared.Event.TheVariants.{Mark, Gap, Switch};
ghost use Rattle.station_model.specs.Station.{refusal};
ghost use Rattle.station.specs.View.{view};
ghost use Rattle.station.specs.Parts.{Next, Steady};
ghost use Rattle.station.specs.Pace.{Beats, Idles, Leads, Spaces};

use crate::inner::accept::{accept, done};
use crate::inner::open::OpenStation;
use crate::inner::refusing::check_steady;
use crate::{Outcome, Station};
use bank::inner::beat::hear_beat;
use bank::inner::space::hear_space;
use bank::inner::streak::is_high;
use bank_model::inner::scores::centroid_logs;
use ranges::Duration;
use rival::inner::each::hear_one;
use station_model::{Code, Event};
use tracker::inner::mark::on_mark;
use tracker::inner::speed::dit_estimate;

// The short ways; a mark and a gap with their length. (A loop matches on what stands here, and is not handed a function:
// each way gives another part of the loop's station anew.)
#[derive(Clone, Copy)]
pub enum Way {
    // A switch with nothing pending.
    Idle,
    // A live mark that a bank hears, and that makes no candidate.
    Beat(Duration),
    // A gap that a bank hears, and that is no pause.
    Space(Duration),
    // None of these.
    Other,
}

// Whether the bank hears what comes.
pub(crate) fn is_heard(s: &Station) -> bool
    ensures { result ≡ (s.now.primary.pair.ready && nat_le 2 s.now.bank.width) }
{
    s.primary.pair.ready && 2 <= s.bank.width
}

// The way of a mark. A streak of fewer than three marks makes no candidate with the next.
pub(crate) fn mark_way(s: &Station, d: Duration, live: bool) -> Way
    requires { refusal (view s.now) (Mark d.ms live) ≡ 0 }
    ensures { Leads s.now (Mark d.ms live) result }
{
    if live && is_heard(s) && s.bank.streak_len < 3 {
        return Way::Beat(d);
    }
    Way::Other
}

// The way of a gap.
pub(crate) fn gap_way(s: &Station, d: Duration) -> Way
    requires { refusal (view s.now) (Gap d.ms) ≡ 0 }
    ensures { Leads s.now (Gap d.ms) result }
{
    if !is_heard(s) || 12.0 * dit_estimate(s.primary) <= d.ms {
        return Way::Other;
    }
    Way::Space(d)
}

// The way of a switch.
pub(crate) fn switch_way(s: &Station) -> Way
    requires { refusal (view s.now) Switch ≡ 0 }
    ensures { Leads s.now Switch result }
{
    if s.bank.pending.is_some() {
        return Way::Other;
    }
    Way::Idle
}

// The way of an event.
pub fn way_of(s: &Station, e: Event) -> Way
    ensures { Leads s.now e result }
{
    let Ok(()) = check_steady(s, e) else {
        return Way::Other;
    };
    match e {
        Event::Mark { dur_ms, live } => mark_way(s, Duration { ms: dur_ms }, live),
        Event::Gap(dur_ms) => gap_way(s, Duration { ms: dur_ms }),
        Event::Switch => switch_way(s),
        _ => Way::Other,
    }
}

// A switch with nothing pending: it is only counted.
pub fn idle(s: &Station, e: Event) -> Outcome
    requires { Steady s.now × Idles s.now e }
    ensures { Next s.now e result }
{
    let station = Station {
        accepted: s.accepted + 1,
        ..*s
    };
    done(station, Code::Nothing)
}

// A live mark d that the bank hears, and that makes no candidate.
pub fn beat(s: &Station, e: Event, d: Duration) -> Outcome
    requires { Steady s.now × Beats s.now e d }
    ensures { Next s.now e result }
{
    let o = OpenStation { station: *s };
    let p = on_mark(o.primary(), d);
    let k = centroid_logs(p.tracker.pair.lo, p.tracker.pair.hi);
    let side = is_high(p.tracker.pair, d.ms);
    let t = hear_beat(o.bank(), p.tracker, side, k, d);
    accept(&o, p, s.serial, t, Code::Done)
}

// A gap d that the bank hears, and that is no pause.
pub fn space(s: &Station, e: Event, d: Duration) -> Outcome
    requires { Steady s.now × Spaces s.now e d }
    ensures { Next s.now e result }
{
    let o = OpenStation { station: *s };
    let unit = dit_estimate(s.primary);
    let station = Station {
        primary: hear_one(o.primary(), unit, d).tracker,
        serial: s.serial,
        bank: hear_space(o.bank(), s.primary, unit, d).bank,
        counts: s.counts,
        accepted: s.accepted + 1,
    };
    done(station, Code::Done)
}
