// What the calls do, for statistics that refusal 1 lets pass.
ghost use Rattle.std.specs.Prelude.{◌≡◌, T, IfOk};
ghost use Rattle.refusals.specs.Refusal.{refusal_of};
ghost use Rattle.ranges.specs.Interval.{In};
ghost use Rattle.ranges.specs.Limits.{class_min, class_max};
ghost use Rattle.sender.specs.Model.{at, view, view_class, view_estimates, held, length_in, stats_of, with_stats};
ghost use Rattle.sender.specs.Sound.{sound};
ghost use Rattle.sender.specs.Steps.{observed, boundary, pauses, mean_of, ratio, word_dits};
ghost use Rattle.sender.specs.Answers.{state_refusal};

use crate::{ClassStats, Dits, Millis, SenderTiming, TimingClass, TimingEstimates, inner};
use numbers::root::BinaryFloat;
use refusals::Refusal;

// The root of 7/3: the Rust's `NOMINAL_WORD_CHAR_RATIO.sqrt()`.
const NOMINAL_ROOT: f32 = 1.5275252;

// Sound statistics: whoever is handed them has not to test them again.
#[derive(Clone, Copy)]
pub struct SoundTiming {
    pub timing: SenderTiming,
    pub ghost held: { T (sound (view timing)) },
}

impl TryFrom<SenderTiming> for SoundTiming {
    type Error = Refusal;

    ghost try_from_gives = { λ s r. (refusal_of r ≡ state_refusal (view s)) × IfOk r (λ t. t.timing ≡ s) };

    fn try_from(timing: SenderTiming) -> Result<SoundTiming, Refusal> {
        if timing.is_sound() {
            Ok(SoundTiming { timing })
        } else {
            Err(Refusal::UnsoundState)
        }
    }
}

impl SoundTiming {
    // One more sample of a class.
    #[tactic(auto, using(crate::proofs::Views::classes), unfolding(crate::specs::Steps::observed))]
    pub(crate) fn observe(&mut self, class: TimingClass, x: Dits)
        requires { In class_min class_max x.0 }
        ensures view { view self.new.timing ≡ observed class x.0 (view self.old.timing) }
        ensures others { self.new.timing ≡ with_stats class (stats_of class self.new.timing) self.old.timing }
    {
        self.timing[class] = self.timing[class].observed(x);
    }

    // The average of a class, where there is one.
    pub fn mean_dits(self, class: TimingClass) -> Option<Dits>
        ensures { length_in result ≡ mean_of (at class (view self.timing)) }
    {
        inner::mean_dits(self.timing, class)
    }

    // The dash to dot ratio, once both have three observations. It is finite: the Rust's tests of that are left out.
    pub fn dash_dot_ratio(self) -> Option<f32>
        ensures { held result ≡ ratio (view self.timing).dot (view self.timing).dash }
    {
        let dot = self.timing.dot;
        let dash = self.timing.dash;
        (dot.n >= 3 && dash.n >= 3).then_some(dash.mean.0 / dot.mean.0)
    }

    // The boundary between characters and words. It is finite, so the Rust's test for that is left out.
    #[tactic(auto, unfolding(crate::specs::Steps::word_dits))]
    pub fn sender_word_dits(self) -> Option<Dits>
        ensures { length_in result ≡ word_dits (view self.timing).char_gap (view self.timing).word_gap }
    {
        let char_gap = self.timing.char_gap.known()?;
        let b = boundary(char_gap.mean, self.timing.word_gap);
        Some(Dits(b.0.clamp(3.0, 12.0)))
    }

    // Whether a closed word gap is a pause.
    pub fn is_pause(self, dits: Dits) -> bool
        ensures { result ≡ pauses dits.0 (view self.timing) }
    {
        inner::is_pause(self.timing, dits)
    }

    // The five classes as a report.
    pub fn estimates(self, dit_ms: Millis) -> TimingEstimates
        ensures dit { result.dit_ms ≡ dit_ms }
        ensures classes { view_estimates result ≡ view self.timing }
    {
        inner::estimates(self.timing, dit_ms)
    }
}

// The boundary before it is clamped: the geometric mean of both gaps, or the char gap times the nominal root.
#[tactic(auto, using(crate::proofs::Readings::nominal_root_law), unfolding(crate::specs::Steps::boundary))]
pub(crate) fn boundary(char_gap: Dits, word_gap: ClassStats) -> Dits
    ensures { result.0 ≡ boundary char_gap.0 (view_class word_gap) }
{
    match word_gap.known() {
        Some(w) => Dits((char_gap.0 * w.mean.0).root()),
        None => Dits(char_gap.0 * NOMINAL_ROOT),
    }
}
