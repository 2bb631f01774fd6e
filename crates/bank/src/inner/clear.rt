// A clear (the Rust's `clear`).
ghost use Rattle.std.specs.Prelude.{◌≡◌};
ghost use Rattle.bank_model.specs.Steps.{clear};
ghost use Rattle.bank.specs.View.{view, told};

use crate::inner::leave::{all_cleared, unchanged};
use crate::{Changed, SoundBank};

// Every challenger leaves, with all evidence and the choice.
pub fn clear(b: SoundBank) -> Changed
    ensures { told result ≡ clear (view b.bank) }
{
    if b.bank.width < 2 {
        return unchanged(b);
    }
    let gone = all_cleared(b);
    let mut c = b.bank;
    c.primary_score = 0.0;
    c.primary_gap_score = 0.0;
    c.challengers_len = 0;
    c.streak_len = 0;
    c.streak_gaps_len = 0;
    c.streak_side = None;
    c.last_gap = None;
    c.pending = None;
    Changed {
        bank: SoundBank { bank: c },
        gone,
    }
}
