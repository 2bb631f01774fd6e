// What is found among the challengers.
ghost use Rattle.std.specs.Prelude.{◌≡◌, if◌then◌else◌, None, take};
ghost use Rattle.std.specs.List.{list_any};
ghost use Rattle.pair.specs.Model.{held};
ghost use Rattle.ranges.specs.Settings.{standard};
ghost use Rattle.bank_model.specs.Scores.{twins};
ghost use Rattle.bank_model.specs.Steps.{
  lesser,
  higher,
  eligible,
  qualifies,
  least_from,
  any_twin,
  greatest_unit,
  place,
};
ghost use Rattle.rival.specs.View.{view_hyp};
ghost use Rattle.bank.specs.View.{view};

use crate::SoundBank;
use bank_model::LogPair;
use bank_model::inner::best::{highest_of, least_of};
use bank_model::inner::scores::duplicates;
use order::max32;
use rival::TimingHypothesis;
use rival::inner::each::{is_eligible, is_qualified, logs_of};
use tracker::inner::speed::dit_estimate;

// The greatest of u and the challengers' dit estimates.
pub(crate) fn greatest_unit(b: SoundBank, u: f32) -> f32
    ensures { result ≡ greatest_unit standard u (view b.bank).challengers }
{
    let mut acc = u;
    for h in &b.bank.challengers[..b.bank.challengers_len] {
        acc = max32(acc, dit_estimate(h.tracker));
    }
    acc
}

// Whether the logarithms that one of the first n holds duplicate t.
pub(crate) fn held_twin(crew: &[TimingHypothesis; 8], n: usize, t: LogPair) -> bool
    ensures { result ≡ list_any (λ h. twins t.lo t.hi h.ln_lo h.ln_hi) (take n crew.now) }
{
    let mut first = crew.iter().take(n);
    first.any(|h| duplicates(t, logs_of(*h)))
}

// Whether a tracker with these logarithms duplicates a challenger.
pub(crate) fn any_twin(b: SoundBank, t: LogPair) -> bool
    ensures { result ≡ any_twin t.lo t.hi (view b.bank).challengers }
{
    held_twin(&b.bank.challengers, b.bank.challengers_len, t)
}

// The challenger h at place i, where it may be replaced and has the least score so far.
pub(crate) fn worse(
    i: usize,
    h: TimingHypothesis,
    acc: Option<(usize, f32)>,
) -> Option<(usize, f32)>
    ensures { result ≡ (if eligible (view_hyp h) then lesser i h.score acc else acc) }
{
    if is_eligible(h) {
        least_of(i, h.score, acc)
    } else {
        acc
    }
}

// The first least score among those that may be replaced.
pub(crate) fn victim(b: SoundBank) -> Option<(usize, f32)>
    ensures { result ≡ least_from eligible 0 None (view b.bank).challengers }
{
    let mut acc: Option<(usize, f32)> = None;
    for (i, h) in b.bank.challengers[..b.bank.challengers_len]
        .iter()
        .enumerate()
    {
        acc = worse(i, *h, acc);
    }
    acc
}

// The challenger h at place i, where it may be chosen and has the highest score so far.
pub(crate) fn better(
    i: usize,
    h: TimingHypothesis,
    gap_score: f32,
    acc: Option<(usize, f32)>,
) -> Option<(usize, f32)>
    ensures { result ≡ (if qualifies gap_score (view_hyp h) then higher i h.score acc else acc) }
{
    if is_qualified(h, gap_score) {
        highest_of(i, h.score, acc)
    } else {
        acc
    }
}

// The place that was found, if one was.
pub(crate) fn place_of(v: Option<(usize, f32)>) -> Option<usize>
    ensures { held result ≡ place v }
{
    v.map(|f| f.0)
}
