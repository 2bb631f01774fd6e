// What `observe` tests of a duration before it does anything.
ghost use Rattle.std.specs.Prelude.{◌≡◌, IfOk};
ghost use Rattle.refusals.specs.Refusal.{refusal_of};
ghost use Rattle.ranges.specs.Interval.{In};
ghost use Rattle.ranges.specs.Limits.{class_min, class_max, duration_refusal};
ghost use Rattle.sender.specs.Model.{view};
ghost use Rattle.sender.specs.Steps.{dits};
ghost use Rattle.sender.specs.Answers.{first_of, dit_refusal, observe_refusal};

use crate::inner::in_dits;
use crate::{Dits, Millis, SenderTiming, SoundTiming};
use ranges::{Duration, within};
use refusals::Refusal;

// A duration in dits, or its refusal by 5 to 7 or 9.
pub(crate) fn measured(dur_ms: Millis, dit_ms: Millis) -> Result<Dits, Refusal>
    ensures refused { refusal_of result ≡ first_of (duration_refusal dur_ms.0) (dit_refusal dit_ms.0) }
    ensures in_dits { IfOk result (λ x. x.0 ≡ dits dur_ms.0 dit_ms.0) }
    ensures in_range { IfOk result (λ x. In class_min class_max x.0) }
{
    let dur = Duration::try_from(dur_ms.0)?;
    if !within(dit_ms.0, 20.0, 150.0) {
        return Err(Refusal::BadDit);
    }
    Ok(in_dits(Millis(dur.ms), dit_ms))
}

// Whether `observe` refuses: by 1, 5 to 7 or 9.
pub fn observe_refusal(s: SenderTiming, dur_ms: Millis, dit_ms: Millis) -> Result<(), Refusal>
    ensures { refusal_of result ≡ observe_refusal (view s) dur_ms.0 dit_ms.0 }
{
    SoundTiming::try_from(s)?;
    measured(dur_ms, dit_ms)?;
    Ok(())
}
