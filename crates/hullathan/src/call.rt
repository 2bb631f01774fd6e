// One call on the station in a host's memory.
ghost use Rattle.std.specs.Prelude.{◌≡◌, cond};
ghost use Rattle.pair.specs.Model.{held};
ghost use Rattle.station_model.specs.Station.{taken};
ghost use Rattle.station.specs.View.{outcome};
ghost use Rattle.station.specs.Parts.{Solid};
ghost use Rattle.plain_station.specs.Plain.{plain_station};
ghost use Rattle.hullathan.specs.Host.{Answers, barred, event_of, row_of};
ghost use Rattle.hullathan.specs.Parts.{Handed};

use crate::event::event_of;
use crate::inner::{is_good, row, turn};
use crate::{Called, PlainAnswer};
use plain_station::PlainStation;
use plain_station::from::station_from;
use refusals::Refusal;
use station::{Outcome, Station};
use station_model::Event;

// The answer where there is no sound station.
pub(crate) fn no_answer() -> PlainAnswer
    ensures { result ≡ barred }
{
    PlainAnswer {
        code: Refusal::UnsoundState.host_code(),
        ..PlainAnswer::default()
    }
}

// The form of the station after a call; where the call was refused, the form p that was handed in.
pub(crate) fn left_at(p: PlainStation, o: Outcome) -> PlainStation
    ensures { result ≡ cond (taken o.answer.code) (plain_station o.station) p }
{
    if o.answer.code.is_taken() {
        PlainStation::from(o.station)
    } else {
        p
    }
}

// What a host finds after a call on the station whose form is p.
pub(crate) fn found(p: PlainStation, o: Outcome) -> Called
    requires { Solid o.station }
    ensures { (result.answer ≡ row_of (outcome o)) × (result.station ≡ cond (taken o.answer.code) (plain_station o.station) p) }
{
    Called {
        station: left_at(p, o),
        answer: row(o),
    }
}

// A call on the sound station s, whose form is p.
pub(crate) fn heard(p: PlainStation, s: Station, event: Option<Event>) -> Called
    requires { Solid s }
    ensures { Handed p s (held event) result }
{
    found(p, turn(s, event))
}

// One call: the kind of the event, whether it is live, and its number.
pub fn called(p: PlainStation, kind: u8, live: u8, value: f32) -> Called
    ensures { Answers (event_of kind live value) p result.answer result.station }
{
    let s = station_from(p);
    if is_good(p, s) {
        return heard(p, s, event_of(kind, live, value));
    }
    Called {
        station: p,
        answer: no_answer(),
    }
}
