// Whether a tracker is sound (document 01, refusal 1).
ghost use Rattle.std.specs.Prelude.{◌≡◌};
ghost use Rattle.ranges.specs.Settings.{standard};
ghost use Rattle.marks.specs.Lists.{all_durations};
ghost use Rattle.pair.specs.Model.{held};
ghost use Rattle.tracker.specs.Model.{view};
ghost use Rattle.tracker.specs.Sound.{positive_or, hint_sound, rest_sound, proper, counted, sound};

use crate::SpeedTracker;
use pair::inner::sound::is_pair_sound;
use ranges::{is_duration, is_positive, within};
use ring::inner::sound::is_ring_sound;

// Whether a number is positive, where there is one.
pub(crate) fn is_positive_or(x: Option<f32>) -> bool
    ensures { result ≡ positive_or (held x) }
{
    x.is_none_or(is_positive)
}

// Whether a hint lies in its limits, where there is one.
pub(crate) fn is_hint_sound(hint: Option<f32>) -> bool
    ensures { result ≡ hint_sound standard (held hint) }
{
    hint.is_none_or(|h| within(h, 2.2, 6.0))
}

// Whether each recent mark is a duration.
pub(crate) fn are_recent(t: SpeedTracker) -> bool
    ensures { result ≡ all_durations (view t).recent }
{
    t.recent.iter().take(t.recent_len).all(|x| is_duration(*x))
}

// Whether the recent marks, the speed average, the gap centroid and the hint are sound.
pub(crate) fn is_rest_sound(t: SpeedTracker) -> bool
    ensures { result ≡ rest_sound standard (view t) }
{
    are_recent(t)
        && is_positive_or(t.wpm_ema)
        && is_positive_or(t.mu_egap_ms)
        && is_hint_sound(t.ratio_hint)
}

// Whether what is part of a state is sound.
#[tactic(auto, unfolding(crate::specs::Sound::proper))]
pub(crate) fn is_proper(t: SpeedTracker) -> bool
    ensures { result ≡ proper standard (view t) }
{
    is_pair_sound(t.pair) && is_ring_sound(&t.ring, t.ring_len) && is_rest_sound(t)
}

// Whether the counts are within their arrays.
pub(crate) fn is_counted(t: SpeedTracker) -> bool
    ensures { result ≡ counted t }
{
    t.pair.init_len <= 12 && t.ring_len <= 12 && t.recent_len <= 5
}

// Whether a tracker is sound.
#[tactic(auto, unfolding(crate::specs::Sound::sound))]
pub fn is_sound(t: SpeedTracker) -> bool
    ensures { result ≡ sound standard t }
{
    is_counted(t) && is_proper(t)
}
