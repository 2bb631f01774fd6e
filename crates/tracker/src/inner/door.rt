// The test of a speed that a call makes at the door (document 01, "Refusals in checking order").
ghost use Rattle.std.specs.Prelude.{◌≡◌};
ghost use Rattle.refusals.specs.Refusal.{refusal_of};
ghost use Rattle.tracker.specs.Answers.{speed_refusal};

use ranges::is_positive;
use refusals::Refusal;

// Refusal 8.
pub fn check_speed(wpm: f32) -> Result<(), Refusal>
    ensures { refusal_of result ≡ speed_refusal wpm }
{
    if is_positive(wpm) {
        Ok(())
    } else {
        Err(Refusal::BadSpeed)
    }
}
