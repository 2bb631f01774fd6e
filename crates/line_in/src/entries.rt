// The entries that a line of one, two or three fields makes (document 01, "Journal program").
ghost use Rattle.std.specs.Prelude.{◌≡◌, [], ◌∷◌};
ghost use Rattle.line_in.specs.Fields.{fields};
ghost use Rattle.line_in.specs.Form.{capped, ticks, whole, sixty_fourths, one, two, three, said};

use crate::Entry;
use crate::fields::{after_tab, field_len};
use crate::values::{flag_of, number_of};
use station_model::Event;

// The f32 of a number of words a minute.
fn speed(n: u32) -> f32
    ensures { result ≡ whole (capped n) }
{
    n.min(16777216) as f32
}

// The f32 of a ratio in 64ths.
fn ratio(n: u32) -> f32
    ensures { result ≡ sixty_fourths (capped n) }
{
    speed(n) / 64.0
}

// The milliseconds of a number of ticks; 262144.03125 are 16,777,218 ticks.
fn duration(n: u32) -> f32
    ensures { result ≡ sixty_fourths (ticks n) }
{
    if n > 16777216 {
        262144.03125
    } else {
        n as f32 / 64.0
    }
}

// A letter alone.
pub(crate) fn one(letter: u8) -> Option<Entry>
    ensures { result ≡ one (letter ∷ []) }
{
    match letter {
        b'F' => Some(Entry::Call(Event::Finish)),
        b'C' => Some(Entry::Call(Event::Clear)),
        b'X' => Some(Entry::Call(Event::Switch)),
        _ => None,
    }
}

// A letter and a number.
fn two(letter: u8, n: u32) -> Option<Entry>
    ensures { result ≡ two (letter ∷ []) n }
{
    match letter {
        b'G' => Some(Entry::Call(Event::Gap(duration(n)))),
        b'S' => Some(Entry::Call(Event::Seed(speed(n)))),
        b'H' => Some(Entry::Call(Event::Hint(ratio(n)))),
        _ => None,
    }
}

// A letter, a number and a flag.
fn three(letter: u8, n: u32, on: bool) -> Option<Entry>
    ensures { result ≡ three (letter ∷ []) n on }
{
    match letter {
        b'W' => Some(Entry::Watch {
            width: n,
            switching: on,
        }),
        b'M' => Some(Entry::Call(Event::Mark {
            dur_ms: duration(n),
            live: on,
        })),
        _ => None,
    }
}

// A letter and what follows the tab after it.
pub(crate) fn numbered(letter: u8, rest: &[u8]) -> Option<Entry>
    ensures { result ≡ said ((letter ∷ []) ∷ fields rest.now) }
{
    let len = field_len(rest);
    let n = number_of(&rest[..len])?;
    if len == rest.len() {
        return two(letter, n);
    }
    let on = flag_of(after_tab(rest))?;
    three(letter, n, on)
}
