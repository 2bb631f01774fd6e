// What the calls do, of statistics that need not be sound where nothing asks for it.
ghost use Rattle.std.specs.Prelude.{◌≡◌, T};
ghost use Rattle.ranges.specs.Interval.{In};
ghost use Rattle.ranges.specs.Limits.{duration_min, duration_max, class_min, class_max};
ghost use Rattle.sender.specs.Constants.{dit_min, dit_max};
ghost use Rattle.sender.specs.Model.{at, view, view_estimates, length_in, stats_of, with_stats};
ghost use Rattle.sender.specs.Sound.{sound};
ghost use Rattle.sender.specs.Steps.{observed, dits, pauses, char_gap_or, mean_of};

use crate::{Dits, Millis, SenderTiming, SoundTiming, TimingClass, TimingEstimates};
use order::max32;

// The one place where milliseconds become dits.
pub(crate) fn in_dits(dur_ms: Millis, dit_ms: Millis) -> Dits
    requires duration { In duration_min duration_max dur_ms.0 }
    requires dit { In dit_min dit_max dit_ms.0 }
    ensures value { result.0 ≡ dits dur_ms.0 dit_ms.0 }
    ensures in_range { In class_min class_max result.0 }
{
    Dits(dur_ms.0 / dit_ms.0)
}

// One duration of a class more, of sound statistics, which stay sound.
pub fn observe(s: SenderTiming, class: TimingClass, dur_ms: Millis, dit_ms: Millis) -> SenderTiming
    requires state { T (sound (view s)) }
    requires duration { In duration_min duration_max dur_ms.0 }
    requires dit { In dit_min dit_max dit_ms.0 }
    ensures result_value { view result ≡ observed class (dits dur_ms.0 dit_ms.0) (view s) }
    ensures still { T (sound (view result)) }
    ensures value { result ≡ with_stats class (stats_of class result) s }
{
    let mut next = SoundTiming { timing: s };
    next.observe(class, in_dits(dur_ms, dit_ms));
    next.timing
}

// The average of a class, where there is one.
pub fn mean_dits(s: SenderTiming, class: TimingClass) -> Option<Dits>
    ensures { length_in result ≡ mean_of (at class (view s)) }
{
    Some(s[class].known()?.mean)
}

// The average char gap, else 0.
#[tactic(auto, unfolding(crate::specs::Steps::char_gap_or))]
pub(crate) fn char_gap_or(s: SenderTiming) -> Dits
    ensures { result.0 ≡ char_gap_or (view s) }
{
    s.char_gap.known().map_or(Dits(0.0), |c| c.mean)
}

// Whether a closed word gap is a pause.
#[tactic(auto, unfolding(crate::specs::Steps::pauses))]
pub fn is_pause(s: SenderTiming, dits: Dits) -> bool
    ensures { result ≡ pauses dits.0 (view s) }
{
    dits.0 >= max32(15.0, 4.0 * char_gap_or(s).0)
}

// The five classes as a report.
pub fn estimates(s: SenderTiming, dit_ms: Millis) -> TimingEstimates
    ensures dit { result.dit_ms ≡ dit_ms }
    ensures classes { view_estimates result ≡ view s }
{
    TimingEstimates {
        dit_ms,
        dot: s.dot.estimate(),
        dash: s.dash.estimate(),
        element_gap: s.element_gap.estimate(),
        char_gap: s.char_gap.estimate(),
        word_gap: s.word_gap.estimate(),
    }
}
