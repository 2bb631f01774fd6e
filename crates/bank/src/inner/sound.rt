// Whether a bank is sound (document 01, refusal 1).
ghost use Rattle.std.specs.Prelude.{◌≡◌, ◌≤◌, true, take};
ghost use Rattle.ranges.specs.Settings.{standard};
ghost use Rattle.marks.specs.Lists.{all, all_durations};
ghost use Rattle.bank_model.specs.Departures.{widest};
ghost use Rattle.rival.specs.Sound.{hyp_sound};
ghost use Rattle.rival.specs.Parts.{Fit};
ghost use Rattle.bank.specs.Sound.{
  record_sound,
  counted,
  width_sound,
  pending_sound,
  gap_sound,
  streak_sound,
  primary_sound,
  rest_sound,
  sound,
};
ghost use Rattle.std.specs.List.{AllByRecursion};
ghost use Rattle.bank.specs.Sturdy.{Sturdy};

use crate::TimingBank;
use bank_model::SwitchRecord;
use ranges::is_duration;
use rival::inner::sound::{is_hyp_sound, is_score};

// Whether each challenger is sound.
pub(crate) fn is_crew_sound(b: &TimingBank) -> bool
    requires { b.now.challengers_len ≤ widest }
    ensures { (result ≡ all (hyp_sound standard) (take b.now.challengers_len b.now.challengers))
        × (result ≡ true → AllByRecursion Fit (take b.now.challengers_len b.now.challengers)) }
{
    for h in &b.challengers[..b.challengers_len] {
        if !is_hyp_sound(*h) {
            return false;
        }
    }
    true
}

// Whether the dits of a switch record are durations.
pub(crate) fn is_record_sound(s: SwitchRecord) -> bool
    ensures { result ≡ record_sound s }
{
    is_duration(s.from_dit_ms) && is_duration(s.to_dit_ms)
}

// Whether each record of the log is sound.
pub(crate) fn is_log_sound(b: &TimingBank) -> bool
    ensures { result ≡ all record_sound (take b.now.log_len b.now.log) }
{
    let mut log = b.log.iter().take(b.log_len);
    log.all(|s| is_record_sound(*s))
}

// Whether the counts are within their arrays.
pub(crate) fn is_counted(b: &TimingBank) -> bool
    ensures { result ≡ counted widest b.now }
{
    b.challengers_len <= 8 && b.streak_len <= 4 && b.streak_gaps_len <= 4 && b.log_len <= 16
}

// Whether the width is allowed, and above the number of challengers.
pub(crate) fn is_wide(b: &TimingBank) -> bool
    ensures { result ≡ width_sound widest b.now }
{
    1 <= b.width && b.width <= 8 && b.challengers_len < b.width
}

// Whether a choice, where there is one, is a challenger's place.
pub(crate) fn is_pending_sound(b: &TimingBank) -> bool
    ensures { result ≡ pending_sound b.now }
{
    b.pending.is_none_or(|i| i < b.challengers_len)
}

// Whether a held gap, where there is one, is a duration.
pub(crate) fn is_gap_sound(gap: Option<f32>) -> bool
    ensures { result ≡ gap_sound gap }
{
    gap.is_none_or(is_duration)
}

// Whether each of the first n is a duration.
pub(crate) fn are_durations(xs: &[f32; 4], n: usize) -> bool
    ensures { result ≡ all_durations (take n xs.now) }
{
    let mut first = xs.iter().take(n);
    first.all(|x| is_duration(*x))
}

// Whether the streak has no more gaps than marks, and each is a duration.
pub(crate) fn is_streak_sound(b: &TimingBank) -> bool
    ensures { result ≡ streak_sound b.now }
{
    b.streak_gaps_len <= b.streak_len
        && are_durations(&b.streak, b.streak_len)
        && are_durations(&b.streak_gaps, b.streak_gaps_len)
        && is_gap_sound(b.last_gap)
}

// Whether the primary's scores are scores.
pub(crate) fn is_primary_sound(b: &TimingBank) -> bool
    ensures { result ≡ primary_sound b.now }
{
    is_score(b.primary_score) && is_score(b.primary_gap_score)
}

// Whether the choice, the streak, the scores and the log of a bank are sound.
pub(crate) fn is_rest_sound(b: &TimingBank) -> bool
    ensures { result ≡ rest_sound b.now }
{
    is_pending_sound(b) && is_streak_sound(b) && is_primary_sound(b) && is_log_sound(b)
}

// Whether a bank is sound.
pub fn is_sound(b: &TimingBank) -> bool
    ensures { (result ≡ sound standard widest b.now) × (result ≡ true → Sturdy b.now) }
{
    if !is_counted(b) || !is_wide(b) || !is_crew_sound(b) {
        return false;
    }
    is_rest_sound(b)
}
