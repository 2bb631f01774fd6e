// Whether a plain form is a tracker's: each flag that is part of the state is 0 or 1.
ghost use Rattle.std.specs.Prelude.{◌≡◌};
ghost use Rattle.plain_tracker.specs.Plain.{is_flag, is_pair, is_ring, are_flags, is_tracker};

use crate::{PlainPair, PlainTracker};

// Whether a flag has the number.
pub fn is_flag(n: u8) -> bool
    ensures { result ≡ is_flag n }
{
    n <= 1
}

// Whether each flag of the pair is one.
pub(crate) fn is_pair(p: PlainPair) -> bool
    ensures { result ≡ is_pair p }
{
    is_flag(p.ready) && is_flag(p.confirmed) && is_flag(p.placeholder_is_lo)
}

// Whether each flag of the tracker itself is one.
pub(crate) fn are_flags(p: PlainTracker) -> bool
    ensures { result ≡ are_flags p }
{
    is_flag(p.has_wpm)
        && is_flag(p.has_egap)
        && is_flag(p.has_hint)
        && is_flag(p.badlock_recovered)
        && is_flag(p.lo_uncorroborated)
}

// Whether the class of each mark of the ring is a flag: what lies beyond the count is no part of a tracker.
pub(crate) fn is_ring(p: PlainTracker) -> bool
    ensures { result ≡ is_ring p }
{
    p.ring
        .iter()
        .take(p.ring_len)
        .all(|e| is_flag(e.assigned_dit))
}

// Whether a plain form is a tracker's.
pub fn is_tracker(p: PlainTracker) -> bool
    ensures { result ≡ is_tracker p }
{
    is_pair(p.pair) && are_flags(p) && is_ring(p)
}
