// What a call of a station is given and what it answers: the events, the codes, the counts by cause.
#![tactic(auto)]

ghost use Rattle.std.specs.Prelude.{◌≡◌};
ghost use Rattle.std.specs.Borrow.{sem};
ghost use Rattle.station_model.specs.Counting.{LendsCount, count_of};
ghost use Rattle.station_model.specs.Station.{number, taken};

use bank_model::Cause;
use refusals::Refusal;

// "One call is one event: mark, gap, seed and hint carry their number with them."
#[derive(Clone, Copy, Debug, PartialEq)]
pub enum Event {
    Mark { dur_ms: f32, live: bool },
    Gap(f32),
    Finish,
    Seed(f32),
    Hint(f32),
    Clear,
    Switch,
}

// What an accepted call came to, or why it is refused.
#[derive(Clone, Copy, Debug, PartialEq, Eq)]
pub enum Code {
    Done,
    BecameReady,
    Switched,
    Nothing,
    Refused(Refusal),
}

impl Code {
    // Whether it is that of an accepted call.
    pub fn is_taken(self) -> bool
        ensures { result ≡ taken self }
    {
        !matches!(self, Code::Refused(_))
    }

    // Its number; of a refused call its refusal's.
    pub fn number(self) -> u8
        ensures { result ≡ number self }
    {
        match self {
            Code::Done => 0,
            Code::BecameReady => 1,
            Code::Switched => 2,
            Code::Nothing => 3,
            Code::Refused(refusal) => u8::from(refusal),
        }
    }
}

// How many hypotheses left, by cause.
#[derive(Clone, Copy, Debug, Default, PartialEq, Eq)]
pub struct Counts {
    pub twins: u64,
    pub outscored: u64,
    pub aged: u64,
    pub replaced: u64,
    pub cleared: u64,
}

impl Counts {
    // How many left by a cause, to read or to count further.
    pub fn of_mut(&mut self, cause: Cause) -> &mut u64
        ensures* lends { sem 𝓛 (LendsCount self.entry cause result) }
        ensures value { result.now ≡ count_of cause self.old }
    {
        match cause {
            Cause::Twin => &mut self.twins,
            Cause::Outscored => &mut self.outscored,
            Cause::Aged => &mut self.aged,
            Cause::Replaced => &mut self.replaced,
            Cause::Cleared => &mut self.cleared,
        }
    }

    // How many left by a cause.
    pub fn of(mut self, cause: Cause) -> u64
        ensures { result ≡ count_of cause self }
    {
        *self.of_mut(cause)
    }
}
