// A sender's statistics as a host in C or Rust has them: a class is its number, 0 to 4, and a refusal 128 and its
// number. The statistics are plain numbers as they are: no flag stands in them, and no byte between them.
#![tactic(auto)]

ghost use Rattle.std.specs.Prelude.{◌≡◌};
ghost use Rattle.refusals.specs.Refusal.{coded, refusal_of};
ghost use Rattle.sender.specs.Model.{class_of, view, view_class};
ghost use Rattle.plain_sender.specs.Plain.{Observes, pauses_at, plain_class, reads, reading_of};

use refusals::{Refusal, coded};
use sender::door::observe_refusal;
use sender::{ClassStats, Dits, Millis, SenderTiming, SoundTiming, TimingClass};

// What a host shows of a sender: the dit as it was handed in, the ratio of dash to dot, the boundary between characters
// and words in dits, and the five classes. A number stands beside each flag, since C's header has them so.
#[repr(C)]
#[derive(Clone, Copy, Default)]
pub struct SenderReading {
    pub code: u8,
    pub has_ratio: u8,
    pub has_word: u8,
    pub pad_has_word: [u8; 1],
    pub dit_ms: f32,
    pub ratio: f32,
    pub word_dits: f32,
    pub dot: ClassStats,
    pub dash: ClassStats,
    pub element_gap: ClassStats,
    pub char_gap: ClassStats,
    pub word_gap: ClassStats,
}

// One duration of a class: 0, or its refusal.
pub fn observe(t: &mut SenderTiming, class: u8, dur_ms: f32, dit_ms: f32) -> u8
    ensures { Observes (class_of class) dur_ms dit_ms t.old result t.new }
{
    coded(sent(t, class, Millis(dur_ms), Millis(dit_ms)))
}

// The same: where no class has the number it is refused by 12, unless it is refused before that.
pub(crate) fn sent(
    t: &mut SenderTiming,
    class: u8,
    dur_ms: Millis,
    dit_ms: Millis,
) -> Result<(), Refusal>
    ensures { Observes (class_of class) dur_ms.0 dit_ms.0 t.old (coded (refusal_of result)) t.new }
{
    let Ok(named) = TimingClass::try_from(class) else {
        observe_refusal(*t, dur_ms, dit_ms)?;
        return Err(Refusal::BadLine);
    };
    t.observe(named, dur_ms, dit_ms)
}

// A class as a host shows it: zeros where there is none.
pub(crate) fn stats_of(c: ClassStats) -> ClassStats
    ensures { result ≡ plain_class (view_class c) }
{
    if c.n == 0 {
        return ClassStats::default();
    }
    c
}

// What sound statistics show.
pub(crate) fn read_of(s: SoundTiming, dit_ms: f32) -> SenderReading
    ensures { result ≡ reading_of dit_ms (view s.timing) }
{
    let ratio = s.dash_dot_ratio();
    let word = s.sender_word_dits().map(|d| d.0);
    let t = s.timing;
    SenderReading {
        code: 0,
        has_ratio: u8::from(ratio.is_some()),
        has_word: u8::from(word.is_some()),
        pad_has_word: [0; 1],
        dit_ms,
        ratio: ratio.unwrap_or(0.0),
        word_dits: word.unwrap_or(0.0),
        dot: stats_of(t.dot),
        dash: stats_of(t.dash),
        element_gap: stats_of(t.element_gap),
        char_gap: stats_of(t.char_gap),
        word_gap: stats_of(t.word_gap),
    }
}

// What a host shows of a sender; zeros where it is refused.
pub fn reading(t: SenderTiming, dit_ms: f32) -> SenderReading
    ensures { result ≡ reads dit_ms t }
{
    match SoundTiming::try_from(t) {
        Ok(sound) => read_of(sound, dit_ms),
        Err(refusal) => SenderReading {
            code: refusal.host_code(),
            ..SenderReading::default()
        },
    }
}

// Whether a closed word gap is a pause rather than the sender's word spacing: 0 no, 1 yes, or its refusal.
pub fn pause(t: SenderTiming, dits: f32) -> u8
    ensures { result ≡ pauses_at dits t }
{
    match t.is_pause(Dits(dits)) {
        Ok(yes) => u8::from(yes),
        Err(refusal) => refusal.host_code(),
    }
}
