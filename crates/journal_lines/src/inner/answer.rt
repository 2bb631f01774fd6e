// A line's answer (document 01, "Journal program").
ghost use Rattle.std.specs.Prelude.{◌≡◌};
ghost use Rattle.std.proofs.Math.Option.{some};
ghost use Rattle.ranges.specs.Settings.{standard};
ghost use Rattle.station.specs.View.{view};
ghost use Rattle.station.specs.Parts.{Steady};
ghost use Rattle.station_model.specs.Station.{step};
ghost use Rattle.journal_lines.specs.Journal.{answer, bad, called, letter, opened, shown};
ghost use Rattle.journal_lines.specs.Parts.{Answered, Called, Lives, reading};

use line_in::Entry;
use line_out::{Shown, ShownCode};
use refusals::Refusal;
use station::Station;
use station::inner::call::next;
use station::inner::fresh::fresh;
use station_model::{Code, Event};

// The letter of an event.
pub(crate) fn letter(e: Event) -> u8
    ensures { result ≡ letter e }
{
    match e {
        Event::Mark { dur_ms: _, live: _ } => b'M',
        Event::Gap(_) => b'G',
        Event::Finish => b'F',
        Event::Seed(_) => b'S',
        Event::Hint(_) => b'H',
        Event::Clear => b'C',
        Event::Switch => b'X',
    }
}

// What is shown of a station; zeros stand for it until there is one.
pub(crate) fn show(station: &Option<Station>, letter: u8, code: Code) -> Shown
    requires { Lives station.now }
    ensures { result ≡ shown letter code (reading station.now) }
{
    match station {
        None => Shown {
            letter,
            code: ShownCode::from(code),
            dit: 0,
            dah: 0,
            serial: 0,
            challengers: 0,
        },
        Some(s) => show_one(s, letter, code),
    }
}

// What is shown of a station that there is.
pub(crate) fn show_one(s: &Station, letter: u8, code: Code) -> Shown
    requires { Steady s.now }
    ensures { result ≡ shown letter code (some (view s.now)) }
{
    Shown {
        letter,
        code: ShownCode::from(code),
        dit: s.primary.pair.lo.to_bits(),
        dah: s.primary.pair.hi.to_bits(),
        serial: s.serial,
        challengers: s.bank.challengers_len as u64,
    }
}

// A bad line: it is answered 12 and passed over.
pub(crate) fn bad(station: &Option<Station>) -> Shown
    requires { Lives station.now }
    ensures { Answered station.now result (bad (reading station.now)) }
{
    show(station, b'?', Code::Refused(Refusal::BadLine))
}

// A `W` where there is no station yet.
pub(crate) fn watch(station: &mut Option<Station>, width: u32, switching: bool) -> Shown
    requires { station.old ≡ None }
    ensures { Answered station.new result (opened width switching) }
{
    if width > 8 {
        return show(station, b'W', Code::Refused(Refusal::TooWide));
    }
    *station = Some(fresh(width as usize, switching));
    show(station, b'W', Code::Done)
}

// An event, of a station.
pub(crate) fn event(s: &mut Station, e: Event) -> Shown
    requires { Steady s.old }
    ensures { Called s.new result (called e (step standard (view s.old) e)) }
{
    let o = next(s, e);
    *s = o.station;
    show_one(s, letter(e), o.answer.code)
}

// A line's answer: before a good `W` only `W` is good, later `W` lines are bad.
pub fn answer(station: &mut Option<Station>, e: Option<Entry>) -> Shown
    requires { Lives station.old }
    ensures { Answered station.new result (answer standard (reading station.old) e) }
{
    match e {
        Some(Entry::Call(c)) => match station {
            Some(s) => event(s, c),
            None => bad(station),
        },
        Some(Entry::Watch { width, switching }) => match station {
            Some(_) => bad(station),
            None => watch(station, width, switching),
        },
        None => bad(station),
    }
}
