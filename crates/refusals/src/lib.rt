// Why a call is refused (document 01, "Refusals in checking order").
#![tactic(auto)]

ghost use Rattle.std.specs.Prelude.{◌≡◌};
ghost use Rattle.refusals.specs.Refusal.{coded, host_code, number, refusal_of};

use std::error::Error;
use std::fmt;

// The twelve refusals, in document 01's order.
#[derive(Clone, Copy, Debug, PartialEq, Eq)]
pub enum Refusal {
    UnsoundState,
    FullCounts,
    TooWide,
    LongList,
    EndlessDuration,
    ShortDuration,
    LongDuration,
    BadSpeed,
    BadDit,
    NoLogarithm,
    NoRoot,
    BadLine,
}

// Its number, 1 to 12.
impl From<Refusal> for u8 {
    ghost from_gives = { λ r n. n ≡ number r };

    fn from(refusal: Refusal) -> u8 {
        match refusal {
            Refusal::UnsoundState => 1,
            Refusal::FullCounts => 2,
            Refusal::TooWide => 3,
            Refusal::LongList => 4,
            Refusal::EndlessDuration => 5,
            Refusal::ShortDuration => 6,
            Refusal::LongDuration => 7,
            Refusal::BadSpeed => 8,
            Refusal::BadDit => 9,
            Refusal::NoLogarithm => 10,
            Refusal::NoRoot => 11,
            Refusal::BadLine => 12,
        }
    }
}

impl Refusal {
    // Its code as a host reads it: 128, which stands for R, and its number.
    pub fn host_code(self) -> u8
        ensures { result ≡ host_code self }
    {
        128 + u8::from(self)
    }
}

// The code of a call that hands back nothing else, as a host reads it: 0, or its refusal's.
pub fn coded(told: Result<(), Refusal>) -> u8
    ensures { result ≡ coded (refusal_of told) }
{
    match told {
        Ok(()) => 0,
        Err(refusal) => refusal.host_code(),
    }
}

impl fmt::Display for Refusal {
    fn fmt<W: fmt::Write>(&self, f: &mut fmt::Formatter<W>) -> fmt::Result {
        f.write_str(match self {
            Refusal::UnsoundState => "a state handed in is unsound",
            Refusal::FullCounts => "marks, gaps or calls can be counted no further",
            Refusal::TooWide => "the width is above 8",
            Refusal::LongList => "the list has more than 12 entries",
            Refusal::EndlessDuration => "the duration is not finite",
            Refusal::ShortDuration => "the duration is below 1/64",
            Refusal::LongDuration => "the duration is above 262144",
            Refusal::BadSpeed => "the speed is not finite and above zero",
            Refusal::BadDit => "the dit is not from 20 to 150",
            Refusal::NoLogarithm => "a logarithm is wanted of what is not finite and positive",
            Refusal::NoRoot => "a root is wanted of what is not finite or is below zero",
            Refusal::BadLine => "the journal line breaks its form",
        })
    }
}

impl Error for Refusal {}

#[cfg(test)]
mod tests {
    use crate::Refusal;

    // The text of a refusal.
    #[test]
    fn says_why(rt: HostRuntime) -> Result<(), std::test::Fail> {
        let said = format!(in rt.alloc(); "{}", Refusal::TooWide)?;
        assert_eq!(rt; said.as_str(), "the width is above 8");
        Ok(())
    }
}
