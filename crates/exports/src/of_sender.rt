// The calls of the crate `sender`: a class is its number, 0 to 4, and an answer is a struct of plain numbers.
ghost use Rattle.std.specs.Prelude.{◌≡◌};
ghost use Rattle.sender.specs.Model.{view, view_estimate, blank, class_of};
ghost use Rattle.sender.specs.Answers.{
  of_told,
  of_length,
  of_ratio,
  of_yes,
  of_report,
  unless,
  state_refusal,
  ratio_said,
  word_said,
  pause_said,
  reported,
};
ghost use Rattle.exports.specs.Sender.{
  code,
  numbered,
  flagged,
  reported_as,
  plain_class,
  observe_said,
  mean_at,
  LeftAt,
};

use refusals::Refusal;
use sender::{ClassEstimate, ClassStats, Dits, Millis, SenderTiming, TimingClass, TimingEstimates};

// The code where no class has the number given.
const NO_CLASS: u8 = 255;

// The answer of `observe`: the code is 0, the number of the refusal, or 255 where no class has the number given.
#[repr(C)]
#[derive(Clone, Copy)]
pub struct SenderObserved {
    pub code: u8,
    pub timing: SenderTiming,
}

// The answer of a call that tells a number: `has` is false where there is none. The flag stands beside the number, here
// and below, since C has no Option.
#[repr(C)]
#[derive(Clone, Copy)]
pub struct SenderNumber {
    pub code: u8,
    pub has: bool,
    pub value: f32,
}

// The answer of a call that tells yes or no.
#[repr(C)]
#[derive(Clone, Copy)]
pub struct SenderFlag {
    pub code: u8,
    pub yes: bool,
}

// The answer of `estimates`: a class with n = 0 has no observations.
#[repr(C)]
#[derive(Clone, Copy)]
pub struct SenderReport {
    pub code: u8,
    pub dit_ms: f32,
    pub classes: SenderTiming,
}

// The code of an answer.
pub(crate) fn told(t: Result<(), Refusal>) -> u8
    ensures { result ≡ code (of_told t) }
{
    match t {
        Ok(()) => 0,
        Err(refusal) => u8::from(refusal),
    }
}

// A ratio, a length, yes or no, as C reads them.
pub(crate) fn ratio(q: Result<Option<f32>, Refusal>) -> SenderNumber
    ensures { result ≡ numbered (of_ratio q) }
{
    match q {
        Ok(x) => SenderNumber {
            code: 0,
            has: x.is_some(),
            value: x.unwrap_or(0.0),
        },
        Err(refusal) => SenderNumber {
            code: u8::from(refusal),
            has: false,
            value: 0.0,
        },
    }
}

pub(crate) fn length(l: Result<Option<Dits>, Refusal>) -> SenderNumber
    ensures { result ≡ numbered (of_length l) }
{
    ratio(l.map(|x| x.map(|d| d.0)))
}

pub(crate) fn flag(y: Result<bool, Refusal>) -> SenderFlag
    ensures { result ≡ flagged (of_yes y) }
{
    match y {
        Ok(yes) => SenderFlag { code: 0, yes },
        Err(refusal) => SenderFlag {
            code: u8::from(refusal),
            yes: false,
        },
    }
}

// One class of a report.
pub(crate) fn class_stats(e: Option<ClassEstimate>) -> ClassStats
    ensures { result ≡ plain_class (view_estimate e) }
{
    match e {
        Some(c) => ClassStats {
            mean: c.mean_dits,
            var: c.var_dits2,
            n: c.n,
        },
        None => ClassStats::default(),
    }
}

pub(crate) fn report(p: Result<TimingEstimates, Refusal>) -> SenderReport
    ensures { result ≡ reported_as (of_report p) }
{
    match p {
        Ok(e) => {
            let classes = SenderTiming {
                dot: class_stats(e.dot),
                dash: class_stats(e.dash),
                element_gap: class_stats(e.element_gap),
                char_gap: class_stats(e.char_gap),
                word_gap: class_stats(e.word_gap),
            };
            SenderReport {
                code: 0,
                dit_ms: e.dit_ms.0,
                classes,
            }
        }
        Err(refusal) => SenderReport {
            code: u8::from(refusal),
            dit_ms: 0.0,
            classes: SenderTiming::new(),
        },
    }
}

// Statistics with no observations.
pub fn hullathan_sender_new() -> SenderTiming
    ensures { result ≡ blank }
{
    SenderTiming::new()
}

// One duration of a class; the statistics are handed back.
pub fn hullathan_sender_observe_by_value(
    t: SenderTiming,
    class: u8,
    dur_ms: f32,
    dit_ms: f32,
) -> SenderObserved
    ensures code_value { result.code ≡ code (observe_said (class_of class) dur_ms dit_ms (view t)) }
    ensures left_at { LeftAt (class_of class) dur_ms dit_ms t result.timing }
{
    let mut timing = t;
    match TimingClass::try_from(class) {
        Ok(named) => {
            let r = timing.observe(named, Millis(dur_ms), Millis(dit_ms));
            SenderObserved {
                code: told(r),
                timing,
            }
        }
        Err(_) => SenderObserved {
            code: NO_CLASS,
            timing,
        },
    }
}

// The average of a class.
pub fn hullathan_sender_mean_dits(t: SenderTiming, class: u8) -> SenderNumber
    ensures { result ≡ numbered (mean_at (class_of class) (view t)) }
{
    match TimingClass::try_from(class) {
        Ok(c) => length(t.mean_dits(c)),
        Err(_) => SenderNumber {
            code: NO_CLASS,
            has: false,
            value: 0.0,
        },
    }
}

// The dash to dot ratio.
pub fn hullathan_sender_dash_dot_ratio(t: SenderTiming) -> SenderNumber
    ensures { result ≡ numbered (unless (state_refusal (view t)) (ratio_said (view t))) }
{
    ratio(t.dash_dot_ratio())
}

// The boundary between characters and words.
pub fn hullathan_sender_word_dits(t: SenderTiming) -> SenderNumber
    ensures { result ≡ numbered (unless (state_refusal (view t)) (word_said (view t))) }
{
    length(t.sender_word_dits())
}

// Whether a closed word gap is a pause.
pub fn hullathan_sender_is_pause_by_value(t: SenderTiming, dits: f32) -> SenderFlag
    ensures { result ≡ flagged (unless (state_refusal (view t)) (pause_said dits (view t))) }
{
    flag(t.is_pause(Dits(dits)))
}

// The five classes as a report.
pub fn hullathan_sender_estimates(t: SenderTiming, dit_ms: f32) -> SenderReport
    ensures { result ≡ reported_as (unless (state_refusal (view t)) (reported dit_ms (view t))) }
{
    report(t.estimates(Millis(dit_ms)))
}
