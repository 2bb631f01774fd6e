// Which refusal a call meets (document 01, "Refusals in checking order").
ghost use Rattle.std.specs.Prelude.{◌≡◌, true, ◌&&◌, Ok, IfOk, T};
ghost use Rattle.refusals.specs.Refusal.{refusal_of};
ghost use Rattle.marks.specs.Lists.{all_durations};
ghost use Rattle.ranges.specs.Settings.{standard};
ghost use Rattle.bank.specs.Switching.{Chosen};
ghost use Rattle.bank.specs.Answers.{
  bank_then,
  both_then,
  full,
  count_then,
  choice_then,
  first_refusal,
  marks_refusal,
  clear_refusal,
  heard_refusal,
  ready_refusal,
  switch_refusal,
};

use crate::inner::sound::is_sound;
use crate::{OpenBank, SoundBank, TimingBank};
use marks::Marks;
use ranges::Duration;
use refusals::Refusal;
use tracker::{SoundTracker, SpeedTracker};

// Refusal 1 of a bank.
pub(crate) fn sound(b: TimingBank) -> Result<SoundBank, Refusal>
    ensures { (refusal_of result ≡ bank_then standard b 0) × IfOk result (λ s. s.bank ≡ b) }
{
    if is_sound(&b) {
        Ok(SoundBank { bank: b })
    } else {
        Err(Refusal::UnsoundState)
    }
}

// Refusal 1 of a bank and the primary beside it.
pub(crate) fn sound_both(
    b: TimingBank,
    p: SpeedTracker,
) -> Result<(SoundBank, SoundTracker), Refusal>
    ensures { (refusal_of result ≡ both_then standard b p 0) × IfOk result (λ s. (s.0.bank ≡ b) × (s.1.tracker ≡ p)) }
{
    let s = sound(b)?;
    let t = SoundTracker::try_from(p)?;
    Ok((s, t))
}

// Whether the marks or the gaps can be counted no further.
pub(crate) fn is_full(marks: u64, gaps: u64) -> bool
    ensures { result ≡ full marks gaps }
{
    4294967295 <= marks || 4294967295 <= gaps
}

// Refusal 2.
pub(crate) fn count_on(b: SoundBank) -> Result<OpenBank, Refusal>
    ensures { (refusal_of result ≡ count_then b.bank 0) × IfOk result (λ o. o.bank.bank ≡ b.bank) }
{
    if is_full(b.bank.marks_seen, b.bank.gaps_seen) {
        Err(Refusal::FullCounts)
    } else {
        Ok(OpenBank { bank: b })
    }
}

// Refusal 1 of a choice beside an unready primary.
pub(crate) fn ready_to_choose(b: SoundBank, p: SpeedTracker) -> Result<(), Refusal>
    ensures { (refusal_of result ≡ choice_then b.bank p 0) × IfOk result (λ u. Chosen b.bank p) }
{
    if b.bank.pending.is_some() && !p.pair.ready {
        Err(Refusal::UnsoundState)
    } else {
        Ok(())
    }
}

// The refusal of the first bad mark.
pub(crate) fn good_marks(marks: &[f32]) -> Result<(), Refusal>
    ensures { (refusal_of result ≡ first_refusal marks.now) × IfOk result (λ u. T (all_durations marks.now)) }
{
    for x in marks {
        Duration::try_from(*x)?;
    }
    Ok(())
}

// Refusals 4 to 7 of a list of marks.
pub(crate) fn good_list(marks: &[f32]) -> Result<Marks<'_>, Refusal>
    ensures { (refusal_of result ≡ marks_refusal marks.now) × IfOk result (λ m. m.at.now ≡ marks.now) }
{
    if 12 < marks.len() {
        return Err(Refusal::LongList);
    }
    good_marks(marks)?;
    Ok(Marks { at: marks })
}

// Refusals 1 and 2 of a switch.
pub(crate) fn switch_call(
    b: TimingBank,
    p: SpeedTracker,
) -> Result<(SoundBank, SoundTracker), Refusal>
    ensures { (refusal_of result ≡ switch_refusal standard b p)
        × IfOk result (λ s. (s.0.bank ≡ b) × ((s.1.tracker ≡ p) × Chosen b p)) }
{
    let (s, t) = sound_both(b, p)?;
    ready_to_choose(s, p)?;
    count_on(s)?;
    Ok((s, t))
}
