// One line of the journal, read into an entry (document 01, "Journal program").
#![tactic(auto)]

ghost use Rattle.std.specs.Prelude.{◌≡◌};
ghost use Rattle.line_in.specs.Form.{entry};

use entries::{numbered, one};
use station_model::Event;

mod entries;
pub mod fields;
pub mod values;

// What a line says: a watch begins, or a call of the station.
#[derive(Clone, Copy)]
pub enum Entry {
    Watch { width: u32, switching: bool },
    Call(Event),
}

// What a line says; none where it breaks its form. It is handed over without its newline, and may have any length.
pub fn entry_of(line: &[u8]) -> Option<Entry>
    ensures { result ≡ entry line.now }
{
    if line.len() > 79 {
        return None;
    }
    match line {
        [letter] => one(*letter),
        [letter, b'\t', rest @ ..] => numbered(*letter, rest),
        _ => None,
    }
}
