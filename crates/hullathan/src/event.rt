// Events and codes by their numbers.
ghost use Rattle.std.specs.Prelude.{◌≡◌};
ghost use Rattle.pair.specs.Model.{held};
ghost use Rattle.hullathan.specs.Host.{code_number, event_of, switches};

use station_model::{Code, Event};

// A flag that a host hands in: 0 no, anything else yes.
pub(crate) fn is_on(n: u8) -> bool
    ensures { result ≡ switches n }
{
    n != 0
}

// The event that has a kind, if one has it. No `TryFrom<u8>`: a kind alone is no event.
pub(crate) fn event_of(kind: u8, live: u8, value: f32) -> Option<Event>
    ensures { held result ≡ event_of kind live value }
{
    match kind {
        0 => Some(Event::Mark {
            dur_ms: value,
            live: is_on(live),
        }),
        1 => Some(Event::Gap(value)),
        2 => Some(Event::Finish),
        3 => Some(Event::Seed(value)),
        4 => Some(Event::Hint(value)),
        5 => Some(Event::Clear),
        6 => Some(Event::Switch),
        _ => None,
    }
}

// A code as a host reads it, 128 for R. No `From<Code> for u8`: that would have to stand beside `Code`, which has no such R.
pub(crate) fn code_number(c: Code) -> u8
    ensures { result ≡ code_number c }
{
    match c {
        Code::Refused(refusal) => refusal.host_code(),
        taken => taken.number(),
    }
}
