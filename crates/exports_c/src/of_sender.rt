// The calls of the crate `sender`: a class is its number, 0 to 4, and an answer is a struct of plain numbers.
ghost use Rattle.std.specs.Prelude.{◌≡◌};
ghost use Rattle.sender.specs.Model.{view, blank, class_of};
ghost use Rattle.sender.specs.Answers.{
  unless,
  state_refusal,
  ratio_said,
  word_said,
  pause_said,
  reported,
};
ghost use Rattle.exports.specs.Sender.{
  code,
  numbered,
  flagged,
  reported_as,
  observe_said,
  mean_at,
  LeftAt,
};

use exports::of_sender::{SenderFlag, SenderNumber, SenderObserved, SenderReport};
use sender::SenderTiming;

// Statistics with no observations.
#[unsafe(no_mangle)]
pub extern "C" fn hullathan_sender_new() -> SenderTiming
    ensures { result ≡ blank }
{
    exports::of_sender::hullathan_sender_new()
}

// One duration of a class; the statistics are handed back.
#[unsafe(no_mangle)]
pub extern "C" fn hullathan_sender_observe_by_value(
    t: SenderTiming,
    class: u8,
    dur_ms: f32,
    dit_ms: f32,
) -> SenderObserved
    ensures code_value { result.code ≡ code (observe_said (class_of class) dur_ms dit_ms (view t)) }
    ensures left_at { LeftAt (class_of class) dur_ms dit_ms t result.timing }
{
    exports::of_sender::hullathan_sender_observe_by_value(t, class, dur_ms, dit_ms)
}

// The average of a class.
#[unsafe(no_mangle)]
pub extern "C" fn hullathan_sender_mean_dits(t: SenderTiming, class: u8) -> SenderNumber
    ensures { result ≡ numbered (mean_at (class_of class) (view t)) }
{
    exports::of_sender::hullathan_sender_mean_dits(t, class)
}

// The dash to dot ratio.
#[unsafe(no_mangle)]
pub extern "C" fn hullathan_sender_dash_dot_ratio(t: SenderTiming) -> SenderNumber
    ensures { result ≡ numbered (unless (state_refusal (view t)) (ratio_said (view t))) }
{
    exports::of_sender::hullathan_sender_dash_dot_ratio(t)
}

// The boundary between characters and words.
#[unsafe(no_mangle)]
pub extern "C" fn hullathan_sender_word_dits(t: SenderTiming) -> SenderNumber
    ensures { result ≡ numbered (unless (state_refusal (view t)) (word_said (view t))) }
{
    exports::of_sender::hullathan_sender_word_dits(t)
}

// Whether a closed word gap is a pause.
#[unsafe(no_mangle)]
pub extern "C" fn hullathan_sender_is_pause_by_value(t: SenderTiming, dits: f32) -> SenderFlag
    ensures { result ≡ flagged (unless (state_refusal (view t)) (pause_said dits (view t))) }
{
    exports::of_sender::hullathan_sender_is_pause_by_value(t, dits)
}

// The five classes as a report.
#[unsafe(no_mangle)]
pub extern "C" fn hullathan_sender_estimates(t: SenderTiming, dit_ms: f32) -> SenderReport
    ensures { result ≡ reported_as (unless (state_refusal (view t)) (reported dit_ms (view t))) }
{
    exports::of_sender::hullathan_sender_estimates(t, dit_ms)
}
