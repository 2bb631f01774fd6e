// Which refusal a call meets (document 01, "Refusals in checking order").
ghost use Rattle.std.specs.Prelude.{◌≡◌, not, ◌&&◌, is_some};
ghost use Rattle.refusals.specs.Refusal.{refusal_of};
ghost use Rattle.ranges.specs.Settings.{standard};
ghost use Rattle.station_model.specs.declared.Code.TheVariants.{Refused};
ghost use Rattle.station_model.specs.Station.{fault, full, refusal};
ghost use Rattle.station.specs.View.{view};
ghost use Rattle.station.specs.Parts.{NoOneLeft, Solid};
ghost use Rattle.station.specs.Sound.{choice_sound};
ghost use Rattle.station.specs.Answers.{call_refusal};

use crate::inner::accept::done;
use crate::{Outcome, Station};
use ranges::Duration;
use refusals::Refusal;
use station_model::{Code, Event};
use tracker::inner::door::check_speed;

// Whether a choice, where there is one, stands beside a ready primary.
pub fn is_chosen(s: &Station) -> bool
    ensures { result ≡ not (is_some s.now.bank.pending && not s.now.primary.pair.ready) }
{
    s.bank.pending.is_none() || s.primary.pair.ready
}

// The same, at a switch.
pub(crate) fn is_choice_sound(s: &Station, e: Event) -> bool
    ensures { result ≡ choice_sound s.now e }
{
    match e {
        Event::Switch => is_chosen(s),
        _ => true,
    }
}

// Refusals 5 to 8.
pub(crate) fn check_number(e: Event) -> Result<(), Refusal>
    ensures { refusal_of result ≡ fault e }
{
    match e {
        Event::Mark { dur_ms, .. } | Event::Gap(dur_ms) => Duration::try_from(dur_ms).map(|_| ()),
        Event::Seed(wpm) => check_speed(wpm),
        _ => Ok(()),
    }
}

// Whether the marks, the gaps or the calls can be counted no further.
pub fn is_full(s: &Station) -> bool
    ensures { result ≡ full (view s.now) }
{
    4294967295 <= s.bank.marks_seen || 4294967295 <= s.bank.gaps_seen || 4294967295 <= s.accepted
}

// Refusals 2 and 5 to 8, which are all that a call on a steady station can meet.
pub fn check_steady(s: &Station, e: Event) -> Result<(), Refusal>
    ensures { refusal_of result ≡ refusal (view s.now) e }
{
    if is_full(s) {
        return Err(Refusal::FullCounts);
    }
    check_number(e)
}

// Refusals 1, 2 and 5 to 8, of a sound station: 1 is that of a choice at a switch.
#[tactic(auto, using(crate::proofs::Refusing::call_sound))]
pub(crate) fn check_call(s: &Station, e: Event) -> Result<(), Refusal>
    requires { Solid s.now }
    ensures { refusal_of result ≡ call_refusal standard s.now e }
{
    if is_choice_sound(s, e) {
        return check_steady(s, e);
    }
    Err(Refusal::UnsoundState)
}

// A refused call: why, the station as it was, and none that left.
pub fn refuse(s: Station, why: Refusal) -> Outcome
    ensures { NoOneLeft s (Refused why) result }
{
    done(s, Code::Refused(why))
}
