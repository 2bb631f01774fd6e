// A tracker that refusal 1 lets pass.
ghost use Rattle.std.specs.Prelude.{◌≡◌, IfOk, T};
ghost use Rattle.ranges.specs.Settings.{standard};
ghost use Rattle.refusals.specs.Refusal.{refusal_of};
ghost use Rattle.tracker.specs.Answers.{state_then};
ghost use Rattle.tracker.specs.Sound.{sound};

use crate::SpeedTracker;
use crate::inner::sound::is_sound;
use refusals::Refusal;

// A sound tracker: whoever is handed one has not to ask again.
#[derive(Clone, Copy)]
pub struct SoundTracker {
    pub tracker: SpeedTracker,
    pub ghost held: { T (sound standard tracker) },
}

impl TryFrom<SpeedTracker> for SoundTracker {
    type Error = Refusal;

    ghost try_from_gives = { λ t r. (refusal_of r ≡ state_then standard t 0) × IfOk r (λ s. s.tracker ≡ t) };

    fn try_from(tracker: SpeedTracker) -> Result<SoundTracker, Refusal> {
        if is_sound(tracker) {
            Ok(SoundTracker { tracker })
        } else {
            Err(Refusal::UnsoundState)
        }
    }
}
