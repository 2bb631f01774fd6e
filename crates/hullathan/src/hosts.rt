// The functions of a station in the host's own memory, which the crate `hullathan_c` exports to C and Rust. Each copies
// out of the host's memory, calls a function by value, and stores what that hands back.
ghost use Rattle.std.specs.Prelude.{◌≡◌};
ghost use Rattle.hullathan.specs.Host.{Answers, Runs, event_of, reads};
ghost use Rattle.hullathan.specs.Promise.{Begins};

use crate::batch::ran;
use crate::call::called;
use crate::read::reading;
use crate::start::started;
use crate::{PlainAnswer, PlainBatch, PlainReading};
use plain_station::PlainStation;
use refusals::coded;

// A fresh station, whatever stood in its place.
pub fn hullathan_start(s: &mut PlainStation, width: usize, switching: u8) -> u8
    ensures { Begins width switching result s.new }
{
    let k = started(width, switching);
    *s = k.station;
    k.code
}

// One call: the kind of the event, whether it is live, and its number.
pub fn hullathan_call(s: &mut PlainStation, kind: u8, live: u8, value: f32) -> PlainAnswer
    ensures { Answers (event_of kind live value) s.old result s.new }
{
    let k = called(*s, kind, live, value);
    *s = k.station;
    k.answer
}

// A batch of events, answered in it.
pub fn hullathan_run(s: &mut PlainStation, b: &mut PlainBatch) -> u8
    ensures { Runs s.old b.old result s.new b.new }
{
    let r = ran(*s, *b);
    *s = r.station;
    *b = r.batch;
    coded(r.told)
}

// What a display and a log need.
pub fn hullathan_read(s: &PlainStation) -> PlainReading
    ensures { result ≡ reads s.now }
{
    reading(*s)
}
