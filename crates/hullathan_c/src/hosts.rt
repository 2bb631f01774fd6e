// The functions of a station, in the host's own memory.
ghost use Rattle.std.specs.Prelude.{◌≡◌};
ghost use Rattle.hullathan.specs.Host.{Answers, Runs, event_of, reads};
ghost use Rattle.hullathan.specs.Promise.{Begins};

use hullathan::{PlainAnswer, PlainBatch, PlainReading};
use plain_station::PlainStation;

// A fresh station, whatever stood in its place.
#[unsafe(no_mangle)]
pub extern "C" fn hullathan_start(s: &mut PlainStation, width: usize, switching: u8) -> u8
    ensures { Begins width switching result s.new }
{
    hullathan::hosts::hullathan_start(s, width, switching)
}

// One call: the kind of the event, whether it is live, and its number.
#[unsafe(no_mangle)]
pub extern "C" fn hullathan_call(
    s: &mut PlainStation,
    kind: u8,
    live: u8,
    value: f32,
) -> PlainAnswer
    ensures { Answers (event_of kind live value) s.old result s.new }
{
    hullathan::hosts::hullathan_call(s, kind, live, value)
}

// A batch of events, answered in it.
#[unsafe(no_mangle)]
pub extern "C" fn hullathan_run(s: &mut PlainStation, b: &mut PlainBatch) -> u8
    ensures { Runs s.old b.old result s.new b.new }
{
    hullathan::hosts::hullathan_run(s, b)
}

// What a display and a log need.
#[unsafe(no_mangle)]
pub extern "C" fn hullathan_read(s: &PlainStation) -> PlainReading
    ensures { result ≡ reads s.now }
{
    hullathan::hosts::hullathan_read(s)
}
