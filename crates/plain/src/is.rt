// Whether a plain form is a bank's: each flag and origin that is part of the state has a number that means something.
ghost use Rattle.std.specs.Prelude.{◌≡◌, leb};
ghost use Rattle.plain.specs.Plain.{is_hyp, is_crew, is_log, is_side, are_flags, is_bank};

use crate::{PlainBank, PlainHypothesis};
use plain_tracker::is::{is_flag, is_tracker};

// Whether an origin has the number.
pub(crate) fn is_named(n: u8) -> bool
    ensures { result ≡ leb n 2 }
{
    n <= 2
}

// Whether a challenger's origin and flags are.
pub(crate) fn is_hypothesis(p: PlainHypothesis) -> bool
    ensures { result ≡ is_hyp p }
{
    is_named(p.origin) && is_flag(p.reported) && is_tracker(p.tracker)
}

// Whether each challenger is one: what lies beyond the count is no part of a bank.
#[tactic(auto, unfolding(crate::specs::Plain::is_crew))]
pub(crate) fn is_crew(p: PlainBank) -> bool
    ensures { result ≡ is_crew p }
{
    let mut crew = p.challengers.iter().take(p.challengers_len);
    crew.all(|h| is_hypothesis(*h))
}

// Whether each switch record is one.
#[tactic(auto, unfolding(crate::specs::Plain::is_log))]
pub(crate) fn is_log(p: PlainBank) -> bool
    ensures { result ≡ is_log p }
{
    p.log.iter().take(p.log_len).all(|s| is_flag(s.applied))
}

// Whether the side is one; where there is none, its number is no part of a bank.
pub(crate) fn is_side(has: u8, side: u8) -> bool
    ensures { result ≡ is_side has side }
{
    match has {
        0 => true,
        1 => is_flag(side),
        _ => false,
    }
}

// Whether each flag of the bank itself is one.
pub(crate) fn are_flags(p: PlainBank) -> bool
    ensures { result ≡ are_flags p }
{
    let side = is_side(p.has_side, p.streak_side);
    is_flag(p.switching) && side && is_flag(p.has_last_gap) && is_flag(p.has_pending)
}

// Whether a plain form is a bank's.
pub fn is_bank(p: PlainBank) -> bool
    ensures { result ≡ is_bank p }
{
    are_flags(p) && is_crew(p) && is_log(p)
}
