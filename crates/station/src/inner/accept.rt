// An accepted call: those that left are counted by their cause, and the call is counted.
ghost use Rattle.std.specs.Prelude.{◌≡◌, ◌≤◌, length};
ghost use Rattle.tracker.specs.Model as Tracked;
ghost use Rattle.bank_model.specs.Departures.{most_left};
ghost use Rattle.bank.specs.View.{told};
ghost use Rattle.station_model.specs.Station.{accepted, tallied};
ghost use Rattle.station.specs.View.{view};
ghost use Rattle.station.specs.Parts.{AtMost, NoOneLeft, Stands};

use crate::inner::open::OpenStation;
use crate::{Answer, Outcome, Station};
use bank::Changed;
use bank_model::{Departure, Departures};
use station_model::{Code, Counts};
use tracker::SoundTracker;

// The counts after those that left.
pub(crate) fn tally(was: Counts, left: &[Departure]) -> Counts
    requires at_most { AtMost 4294967296 was }
    requires few { length left.now ≤ most_left }
    ensures { result ≡ tallied was left.now }
{
    let mut counts = was;
    for d in left {
        *counts.of_mut(d.cause) += 1;
    }
    counts
}

// A call that no one leaves at: the station after it, and the code.
pub(crate) fn done(t: Station, code: Code) -> Outcome
    ensures { NoOneLeft t code result }
{
    Outcome {
        station: t,
        answer: Answer {
            code,
            gone: Departures::none(),
        },
    }
}

// A call is accepted: the primary and its serial, the bank and those that left it, and the code.
pub(crate) fn accept(
    s: &OpenStation,
    primary: SoundTracker,
    serial: u64,
    t: Changed,
    code: Code,
) -> Outcome
    ensures { Stands result (accepted (view s.now.station)
        (record { primary = Tracked.view primary.tracker; serial = serial; told = told t; code = code })) }
{
    let gone = t.gone;
    let counts = tally(s.station.counts, &gone.left[..gone.left_len]);
    let station = Station {
        primary: primary.tracker,
        serial,
        bank: t.bank.bank,
        counts,
        accepted: s.station.accepted + 1,
    };
    Outcome {
        station,
        answer: Answer { code, gone },
    }
}
