// The functions of a sender's statistics, in the host's own memory.
ghost use Rattle.std.specs.Prelude.{◌≡◌};
ghost use Rattle.sender.specs.Model.{blank, class_of};
ghost use Rattle.plain_sender.specs.Plain.{Observes, pauses_at, reads};

use plain_sender::SenderReading;
use sender::SenderTiming;

// Statistics with no observations, whatever stood in their place.
#[unsafe(no_mangle)]
pub extern "C" fn hullathan_sender_start(t: &mut SenderTiming)
    ensures { t.new ≡ blank }
{
    hullathan::senders::hullathan_sender_start(t);
}

// One duration of a class, by its number, measured against a dit.
#[unsafe(no_mangle)]
pub extern "C" fn hullathan_sender_observe(
    t: &mut SenderTiming,
    timing_class: u8,
    dur_ms: f32,
    dit_ms: f32,
) -> u8
    ensures { Observes (class_of timing_class) dur_ms dit_ms t.old result t.new }
{
    hullathan::senders::hullathan_sender_observe(t, timing_class, dur_ms, dit_ms)
}

// What a display shows of a sender.
#[unsafe(no_mangle)]
pub extern "C" fn hullathan_sender_read(t: &SenderTiming, dit_ms: f32) -> SenderReading
    ensures { result ≡ reads dit_ms t.now }
{
    hullathan::senders::hullathan_sender_read(t, dit_ms)
}

// Whether a closed word gap is a pause.
#[unsafe(no_mangle)]
pub extern "C" fn hullathan_sender_is_pause(t: &SenderTiming, gap_dits: f32) -> u8
    ensures { result ≡ pauses_at gap_dits t.now }
{
    hullathan::senders::hullathan_sender_is_pause(t, gap_dits)
}
