// Structs whose numbers are their places, so that a host can compare its own declarations with the library's.
ghost use Rattle.std.specs.Prelude.{◌≡◌};
ghost use Rattle.hullathan.specs.Layout as Placed;

use hullathan::{PlainAnswer, PlainBatch, PlainReading};
use plain_sender::SenderReading;
use plain_station::PlainStation;
use sender::SenderTiming;

// A station, with all that it holds.
#[unsafe(no_mangle)]
pub extern "C" fn hullathan_layout_station() -> PlainStation
    ensures { result ≡ Placed.station }
{
    hullathan::layout::hullathan_layout_station()
}

// An answer.
#[unsafe(no_mangle)]
pub extern "C" fn hullathan_layout_answer() -> PlainAnswer
    ensures { result ≡ Placed.answer 0 }
{
    hullathan::layout::hullathan_layout_answer()
}

// A batch.
#[unsafe(no_mangle)]
pub extern "C" fn hullathan_layout_batch() -> PlainBatch
    ensures { result ≡ Placed.batch }
{
    hullathan::layout::hullathan_layout_batch()
}

// A reading.
#[unsafe(no_mangle)]
pub extern "C" fn hullathan_layout_reading() -> PlainReading
    ensures { result ≡ Placed.reading }
{
    hullathan::layout::hullathan_layout_reading()
}

// A sender's statistics.
#[unsafe(no_mangle)]
pub extern "C" fn hullathan_layout_sender() -> SenderTiming
    ensures { result ≡ Placed.sender }
{
    hullathan::layout::hullathan_layout_sender()
}

// What is read of a sender.
#[unsafe(no_mangle)]
pub extern "C" fn hullathan_layout_sender_reading() -> SenderReading
    ensures { result ≡ Placed.sender_reading }
{
    hullathan::layout::hullathan_layout_sender_reading()
}
