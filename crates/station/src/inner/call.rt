// A call on a station that is known to be sound: only the call is tested.
ghost use Rattle.ranges.specs.Settings.{standard};
ghost use Rattle.station.specs.Parts.{Next, Solid, Steady};
ghost use Rattle.station.specs.Answers.{Called};

use crate::inner::events::step;
use crate::inner::open::OpenStation;
use crate::inner::refusing::{check_call, refuse};
use crate::{Outcome, Station};
use station_model::Event;

// One call: one event.
pub fn call(s: &Station, e: Event) -> Outcome
    requires { Solid s.now }
    ensures { Called standard s.now e result × Solid result.station }
{
    match check_call(s, e) {
        Ok(()) => step(&OpenStation { station: *s }, e),
        Err(why) => refuse(*s, why),
    }
}

// The same, on a station from a fresh one: it is never refused by 1.
pub fn next(s: &Station, e: Event) -> Outcome
    requires { Steady s.now }
    ensures { Next s.now e result }
{
    call(s, e)
}
