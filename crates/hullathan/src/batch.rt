// A batch of events on the station in a host's memory.
ghost use Rattle.std.specs.Prelude.{◌≡◌, ◌≤◌};
ghost use Rattle.refusals.specs.Refusal.{coded, refusal_of};
ghost use Rattle.station.specs.Parts.{Solid, Steady};
ghost use Rattle.plain_station.specs.Plain.{plain_station};
ghost use Rattle.hullathan.specs.Host.{Runs, of_event};
ghost use Rattle.hullathan.specs.Parts.{Along, Kept, Told};

use crate::event::event_of;
use crate::inner::{formless_row, is_good, row, row_after, turn};
use crate::{PlainAnswer, PlainBatch, PlainEvent, Ran};
use plain_station::PlainStation;
use plain_station::from::station_from;
use refusals::Refusal;
use station::Station;
use station::inner::call::next;
use station::inner::pace::{Way, beat, idle, space, way_of};
use station::inner::refusing::is_chosen;

// A station after an event, and the answer.
#[derive(Clone, Copy)]
pub(crate) struct Step {
    pub station: Station,
    pub answer: PlainAnswer,
}

// One event of a batch.
pub(crate) fn one_event(s: Station, e: PlainEvent) -> Step
    requires { Solid s }
    ensures { Told s (of_event e) result.station result.answer }
{
    let o = turn(s, event_of(e.kind, e.live, e.value));
    Step {
        station: o.station,
        answer: row(o),
    }
}

// A batch that was run: the station after it, and the batch with its answers.
pub(crate) fn run_of(s: Station, batch: PlainBatch) -> Ran
    ensures { (refusal_of result.told ≡ 0) × ((result.station ≡ plain_station s) × (result.batch ≡ batch)) }
{
    Ran {
        told: Ok(()),
        station: PlainStation::from(s),
        batch,
    }
}

// The events of a batch, on a sound station.
pub(crate) fn along_any(s: Station, b: PlainBatch) -> Ran
    requires { Solid s × (b.len ≤ 64) }
    ensures { Along s b result }
{
    let mut c = s;
    let mut out = b;
    for i in 0..b.len {
        let t = one_event(c, b.events[i]);
        c = t.station;
        out.answers[i] = t.answer;
    }
    run_of(c, out)
}

// The same, where no choice stands beside an unready primary: the loop holds the station in one place, and the short ways copy little of it.
pub(crate) fn along(s: Station, b: PlainBatch) -> Ran
    requires { Steady s × (b.len ≤ 64) }
    ensures { Along s b result }
{
    let mut c = s;
    let mut out = b;
    for i in 0..b.len {
        let e = b.events[i];
        let Some(v) = event_of(e.kind, e.live, e.value) else {
            out.answers[i] = formless_row(c);
            continue;
        };
        let o = match way_of(&c, v) {
            Way::Idle => idle(&c, v),
            Way::Beat(d) => beat(&c, v, d),
            Way::Space(d) => space(&c, v, d),
            Way::Other => next(&c, v),
        };
        c = o.station;
        out.answers[i] = row_after(o.answer, c);
    }
    run_of(c, out)
}

// The events of a batch, on a sound station, by the quicker loop where that is allowed.
pub(crate) fn run_on(s: Station, b: PlainBatch) -> Ran
    requires { Solid s × (b.len ≤ 64) }
    ensures { Along s b result }
{
    if is_chosen(&s) {
        return along(s, b);
    }
    along_any(s, b)
}

// What was run; where no event was accepted, which the station counts, with the form p that was handed in.
pub(crate) fn or_kept(p: PlainStation, r: Ran) -> Ran
    ensures { Kept p r result }
{
    let mut a = r;
    if a.station.accepted == p.accepted {
        a.station = p;
    }
    a
}

// A batch: refused by 1 where there is no sound station, or the count is above its capacity.
pub fn ran(p: PlainStation, b: PlainBatch) -> Ran
    ensures { Runs p b (coded (refusal_of result.told)) result.station result.batch }
{
    if b.len <= 64 {
        let s = station_from(p);
        if is_good(p, s) {
            return or_kept(p, run_on(s, b));
        }
    }
    Ran {
        told: Err(Refusal::UnsoundState),
        station: p,
        batch: b,
    }
}
