// Whether a station is sound (document 01, refusal 1).
ghost use Rattle.std.specs.Prelude.{◌≡◌, ◌+◌, ◌<◌, true, take, length, MatchOption};
ghost use Rattle.ranges.specs.Settings.{standard};
ghost use Rattle.marks.specs.Lists.{all};
ghost use Rattle.bank.specs.Sturdy.{Sturdy};
ghost use Rattle.station.specs.Parts.{Solid};
ghost use Rattle.station.specs.Sound.{balanced, differs, distinct, given_out, held_once, own_sound, serials, sound, up_to};

use crate::Station;
use bank::inner::sound as of_bank;
use station_model::Counts;
use tracker::inner::sound as of_tracker;

// The serials that a station holds: the primary's, then the challengers'.
pub(crate) fn serials(s: Station) -> [u64; 9]
    requires { Sturdy s.bank }
    ensures are { take (s.bank.challengers_len + 1) result ≡ serials s }
    ensures nine { length result ≡ 9 }
{
    let b = s.bank;
    let mut out = [s.serial; 9];
    for (i, h) in b.challengers[..b.challengers_len].iter().enumerate() {
        out[i + 1] = h.serial;
    }
    out
}

// Whether none is above the most.
pub(crate) fn are_up_to(xs: &[u64], most: u64) -> bool
    ensures { result ≡ all (up_to most) xs.now }
{
    xs.iter().all(|x| *x <= most)
}

// Whether n is none of them.
pub(crate) fn all_differ(xs: &[u64], n: u64) -> bool
    ensures { result ≡ all (differs n) xs.now }
{
    xs.iter().all(|x| n != *x)
}

// Whether no two are the same.
pub(crate) fn are_distinct(xs: &[u64]) -> bool
    ensures { result ≡ distinct xs.now }
{
    for (i, x) in xs.iter().enumerate() {
        if !all_differ(&xs[i + 1..], *x) {
            return false;
        }
    }
    true
}

// Whether each was given out, and none is held twice.
pub(crate) fn are_held_once(xs: &[u64], started: u64) -> bool
    ensures { result ≡ held_once started xs.now }
{
    are_up_to(xs, started) && are_distinct(xs)
}

// What is left of started without those held and those that left, each cause by itself: so that no sum is too large.
pub(crate) fn rest(started: u64, held: usize, c: Counts) -> Option<u64>
    ensures { MatchOption result (started < given_out held c) (λ n. started ≡ n + given_out held c) }
{
    started
        .checked_sub(held as u64)?
        .checked_sub(c.twins)?
        .checked_sub(c.outscored)?
        .checked_sub(c.aged)?
        .checked_sub(c.replaced)?
        .checked_sub(c.cleared)
}

// Whether started is what is held and what left.
pub(crate) fn is_balanced(started: u64, held: usize, c: Counts) -> bool
    ensures { result ≡ balanced started held c }
{
    rest(started, held, c) == Some(0)
}

// Whether the serials, the starts and the counts of a station agree.
pub(crate) fn is_own_sound(s: Station) -> bool
    requires { Sturdy s.bank }
    ensures { result ≡ own_sound s }
{
    let b = s.bank;
    let n = b.challengers_len;
    let held = serials(s);
    are_held_once(&held[..n + 1], b.started)
        && b.started <= s.accepted
        && is_balanced(b.started, n, s.counts)
}

// Whether a station is sound.
#[tactic(auto, using(crate::proofs::Sounding::solid_of), unfolding(crate::specs::Sound::sound))]
pub fn is_sound(s: Station) -> bool
    ensures is { result ≡ sound standard s }
    ensures solid { result ≡ true → Solid s }
{
    of_tracker::is_sound(s.primary) && of_bank::is_sound(&s.bank) && is_own_sound(s)
}
