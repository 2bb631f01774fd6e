// What the calls do on a station that is known to be sound: each function asks what it needs.
ghost use Rattle.std.specs.Prelude.{◌≡◌, true, cond, ◌&&◌};
ghost use Rattle.std.proofs.Math.Option.{none};
ghost use Rattle.pair.specs.Model.{held};
ghost use Rattle.refusals.specs.Refusal.{number};
ghost use Rattle.station_model.specs.Station.{full};
ghost use Rattle.station.specs.View.{outcome, view};
ghost use Rattle.station.specs.Parts.{Solid};
ghost use Rattle.ranges.specs.Settings.{standard};
ghost use Rattle.station.specs.Sound.{sound};
ghost use Rattle.plain_station.specs.Plain.{is_station};
ghost use Rattle.hullathan.specs.Host.{asked, row_of};
ghost use Rattle.hullathan.specs.Parts.{Row, Turns};

use crate::PlainAnswer;
use crate::event::code_number;
use plain::to::plain_departures;
use plain_station::PlainStation;
use plain_station::from::is_station;
use refusals::Refusal;
use station::inner::call::call;
use station::inner::refusing::{is_full, refuse};
use station::inner::sound::is_sound;
use station::{Answer, Outcome, Station};
use station_model::Event;

// Whether the memory p holds a sound station, s. A `Result` of the station would be a copy more: a call took a third longer.
pub fn is_good(p: PlainStation, s: Station) -> bool
    ensures { (result ≡ is_station p && sound standard s) × (result ≡ true → Solid s) }
{
    is_station(p) && is_sound(s)
}

// The refusal of a call whose kind no event has: 2, or 12.
pub(crate) fn formless(s: Station) -> Refusal
    ensures { number result ≡ cond (full (view s)) 2 12 }
{
    if is_full(&s) {
        Refusal::FullCounts
    } else {
        Refusal::BadLine
    }
}

// One call.
pub fn turn(s: Station, event: Option<Event>) -> Outcome
    requires { Solid s }
    ensures { Turns s (held event) result }
{
    match event {
        Some(e) => call(&s, e),
        None => refuse(s, formless(s)),
    }
}

// The answer as a host reads it, of a call that left the station s.
pub(crate) fn row_after(a: Answer, s: Station) -> PlainAnswer
    ensures { Row a s result }
{
    PlainAnswer {
        code: code_number(a.code),
        pad_code: [0; 3],
        dit_ms: s.primary.pair.lo,
        dah_ms: s.primary.pair.hi,
        pad_dah_ms: [0; 4],
        serial: s.serial,
        challengers: s.bank.challengers_len,
        left: plain_departures(&a.gone.left, a.gone.left_len),
        left_len: a.gone.left_len,
    }
}

// The answer of an outcome.
pub fn row(o: Outcome) -> PlainAnswer
    requires { Solid o.station }
    ensures { result ≡ row_of (outcome o) }
{
    row_after(o.answer, o.station)
}

// The answer where no event has the kind.
pub(crate) fn formless_row(s: Station) -> PlainAnswer
    requires { Solid s }
    ensures { result ≡ row_of (asked (view s) none) }
{
    row(refuse(s, formless(s)))
}
