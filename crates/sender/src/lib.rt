// A sender's statistics of document 01, "SenderTiming": five classes of lengths in dits, each with its average, its
// variance and a count.
#![tactic(auto)]

ghost use Rattle.std.specs.Prelude.{◌≡◌, Float, T};
ghost use Rattle.std.proofs.Math.Option.{some};
ghost use Rattle.ranges.specs.Interval.{In};
ghost use Rattle.ranges.specs.Limits.{class_min, class_max};
ghost use Rattle.sender.specs.Constants.{word_min, word_max};
ghost use Rattle.sender.specs.Model.{
  number,
  class_of,
  class_in,
  view_class,
  seen,
  view_estimate,
  view,
  blank,
  stats_of,
  with_stats,
};
ghost use Rattle.sender.specs.Sound.{class_sound, sound};
ghost use Rattle.sender.specs.Steps.{observed_class, observed, dits};
ghost use Rattle.sender.specs.Answers.{
  of_told,
  of_length,
  of_ratio,
  of_yes,
  of_report,
  unless,
  done,
  in_dits,
  state_refusal,
  observe_refusal,
  Left,
  mean_said,
  ratio_said,
  word_said,
  pause_said,
  reported,
};

use order::is_finite32;
use ranges::within;
use refusals::Refusal;
pub use sound::SoundTiming;
use std::error::Error;
use std::fmt;
use std::ops::{Index, IndexMut};

pub mod door;
pub mod inner;
mod sound;

// The weight of a new sample: the Rust's `CLUSTER_ALPHA`.
const WEIGHT: f32 = 0.15;

// A length in milliseconds.
#[derive(Clone, Copy)]
pub struct Millis(pub f32);

// A length in dits. Only `observe` makes one of milliseconds.
#[repr(C)]
#[derive(Clone, Copy, Default)]
pub struct Dits(pub f32);

#[derive(Clone, Copy, Debug, PartialEq, Eq)]
pub enum TimingClass {
    Dot,
    Dash,
    ElementGap,
    CharGap,
    WordGap,
}

impl TimingClass {
    // Its number, 0 to 4.
    pub fn index(self) -> usize
        ensures { result ≡ number self }
    {
        self as usize
    }
}

// No class has the number given.
#[derive(Clone, Copy, Debug, PartialEq, Eq)]
pub struct NoClass;

impl fmt::Display for NoClass {
    fn fmt<W: fmt::Write>(&self, f: &mut fmt::Formatter<W>) -> fmt::Result {
        f.write_str("no class has this number")
    }
}

impl Error for NoClass {}

// The class that has a number.
impl TryFrom<u8> for TimingClass {
    type Error = NoClass;

    ghost try_from_gives = { λ n r. class_in r ≡ class_of n };

    fn try_from(n: u8) -> Result<TimingClass, NoClass> {
        match n {
            0 => Ok(TimingClass::Dot),
            1 => Ok(TimingClass::Dash),
            2 => Ok(TimingClass::ElementGap),
            3 => Ok(TimingClass::CharGap),
            4 => Ok(TimingClass::WordGap),
            _ => Err(NoClass),
        }
    }
}

// What is known of one class: average and variance, which mean nothing while n is 0. No Option, since these numbers lie in
// a host's memory as C's header has them.
#[repr(C)]
#[derive(Clone, Copy, Default)]
pub struct ClassStats {
    pub mean: Dits,
    pub var: f32,
    pub n: u32,
}

impl ClassStats {
    // The same, where anything was observed.
    pub(crate) fn known(self) -> Option<ClassStats>
        ensures { seen result ≡ view_class self }
    {
        (self.n > 0).then_some(self)
    }

    // Whether refusal 1 lets them pass; where nothing was observed there is nothing to test.
    #[tactic(auto, unfolding(crate::specs::Sound::class_sound))]
    pub fn is_sound(self) -> bool
        ensures { result ≡ class_sound (view_class self) }
    {
        self.n == 0
            || (within(self.mean.0, 0.0001, 13108.0) && 0.0 <= self.var && is_finite32(self.var))
    }

    // The same with one more sample: the Rust's `ClassStats::observe`. The count stays at its largest.
    pub(crate) fn observed(self, x: Dits) -> ClassStats
        requires sound { T (class_sound (view_class self)) }
        requires in_range { In class_min class_max x.0 }
        ensures view { view_class result ≡ some (observed_class (view_class self) x.0) }
        ensures sound { T (class_sound (view_class result)) }
    {
        match self.known() {
            None => ClassStats {
                mean: x,
                var: 0.0,
                n: 1,
            },
            Some(s) => {
                let d = x.0 - s.mean.0;
                ClassStats {
                    mean: Dits(s.mean.0 + WEIGHT * d),
                    var: (1.0 - WEIGHT) * (s.var + WEIGHT * d * d),
                    n: s.n.saturating_add(1),
                }
            }
        }
    }

    // The same for a report.
    pub(crate) fn estimate(self) -> Option<ClassEstimate>
        ensures { view_estimate result ≡ view_class self }
    {
        let known = self.known()?;
        Some(ClassEstimate {
            mean_dits: known.mean,
            var_dits2: known.var,
            n: known.n,
        })
    }
}

// One class in a report.
#[derive(Clone, Copy)]
pub struct ClassEstimate {
    pub mean_dits: Dits,
    pub var_dits2: f32,
    pub n: u32,
}

// The five classes as a report, in dits of `dit_ms`.
#[derive(Clone, Copy)]
pub struct TimingEstimates {
    pub dit_ms: Millis,
    pub dot: Option<ClassEstimate>,
    pub dash: Option<ClassEstimate>,
    pub element_gap: Option<ClassEstimate>,
    pub char_gap: Option<ClassEstimate>,
    pub word_gap: Option<ClassEstimate>,
}

// The five classes.
#[repr(C)]
#[derive(Clone, Copy, Default)]
pub struct SenderTiming {
    pub dot: ClassStats,
    pub dash: ClassStats,
    pub element_gap: ClassStats,
    pub char_gap: ClassStats,
    pub word_gap: ClassStats,
}

// The statistics of a class.
impl Index<TimingClass> for SenderTiming {
    type Output = ClassStats;

    ghost index_gives = { λ s class c. c ≡ stats_of class s };

    fn index(&self, class: TimingClass) -> &ClassStats {
        match class {
            TimingClass::Dot => &self.dot,
            TimingClass::Dash => &self.dash,
            TimingClass::ElementGap => &self.element_gap,
            TimingClass::CharGap => &self.char_gap,
            TimingClass::WordGap => &self.word_gap,
        }
    }
}

impl IndexMut<TimingClass> for SenderTiming {
    ghost use Rattle.sender.specs.Lending.{LendsClass};
    ghost use Rattle.std.specs.Borrow.{sem};

    fn index_mut(&mut self, class: TimingClass) -> &mut ClassStats
        ensures* writes_back { sem 𝓛 (LendsClass self.entry class result) }
        ensures value { result.now ≡ stats_of class self.old }
    {
        match class {
            TimingClass::Dot => &mut self.dot,
            TimingClass::Dash => &mut self.dash,
            TimingClass::ElementGap => &mut self.element_gap,
            TimingClass::CharGap => &mut self.char_gap,
            TimingClass::WordGap => &mut self.word_gap,
        }
    }
}

impl SenderTiming {
    // Statistics with no observations.
    pub fn new() -> SenderTiming
        ensures { result ≡ blank }
    {
        SenderTiming::default()
    }

    // Whether all five are as refusal 1 wants them.
    #[tactic(auto, unfolding(crate::specs::Sound::sound))]
    pub fn is_sound(self) -> bool
        ensures { result ≡ sound (view self) }
    {
        self.dot.is_sound()
            && self.dash.is_sound()
            && self.element_gap.is_sound()
            && self.char_gap.is_sound()
            && self.word_gap.is_sound()
    }

    // One duration of a class, measured against a dit. No other class changes, bit for bit, and none if it is refused.
    pub fn observe(
        &mut self,
        class: TimingClass,
        dur_ms: Millis,
        dit_ms: Millis,
    ) -> Result<(), Refusal>
        ensures told_value { of_told result ≡ unless (observe_refusal (view self.old) dur_ms.0 dit_ms.0) done }
        ensures left { Left (observe_refusal (view self.old) dur_ms.0 dit_ms.0) self.old
            (observed class (dits dur_ms.0 dit_ms.0) (view self.old)) self.new }
        ensures timing_value { self.new ≡ with_stats class (stats_of class self.new) self.old }
    {
        door::observe_refusal(*self, dur_ms, dit_ms)?;
        *self = inner::observe(*self, class, dur_ms, dit_ms);
        Ok(())
    }

    // The average of a class.
    pub fn mean_dits(self, class: TimingClass) -> Result<Option<Dits>, Refusal>
        ensures { of_length result ≡ unless (state_refusal (view self)) (mean_said class (view self)) }
    {
        Ok(SoundTiming::try_from(self)?.mean_dits(class))
    }

    // The sender's dash to dot ratio.
    pub fn dash_dot_ratio(self) -> Result<Option<f32>, Refusal>
        ensures { of_ratio result ≡ unless (state_refusal (view self)) (ratio_said (view self)) }
    {
        Ok(SoundTiming::try_from(self)?.dash_dot_ratio())
    }

    // The sender's boundary between characters and words: where there is one, it lies from 3 to 12.
    pub fn sender_word_dits(self) -> Result<Option<Dits>, Refusal>
        ensures result_value { of_length result ≡ unless (state_refusal (view self)) (word_said (view self)) }
        ensures fact { (x : Float) → of_length result ≡ in_dits x → In word_min word_max x }
    {
        Ok(SoundTiming::try_from(self)?.sender_word_dits())
    }

    // Whether a closed word gap is a pause rather than the sender's word spacing.
    pub fn is_pause(self, dits: Dits) -> Result<bool, Refusal>
        ensures { of_yes result ≡ unless (state_refusal (view self)) (pause_said dits.0 (view self)) }
    {
        Ok(SoundTiming::try_from(self)?.is_pause(dits))
    }

    // The five classes as a report; the dit is copied as given.
    pub fn estimates(self, dit_ms: Millis) -> Result<TimingEstimates, Refusal>
        ensures { of_report result ≡ unless (state_refusal (view self)) (reported dit_ms.0 (view self)) }
    {
        Ok(SoundTiming::try_from(self)?.estimates(dit_ms))
    }
}
