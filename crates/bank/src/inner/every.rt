// A mark, for every challenger.
ghost use Rattle.std.specs.Prelude.{◌≡◌, map};
ghost use Rattle.ranges.specs.Settings.{standard};
ghost use Rattle.bank_model.specs.Model.{with_challengers};
ghost use Rattle.bank_model.specs.Steps.{marked};
ghost use Rattle.bank.specs.View.{view};

use crate::SoundBank;
use bank_model::Measured;
use rival::inner::each::mark_one;

// Each challenger hears the mark d.
pub(crate) fn mark_all(b: SoundBank, d: Measured, live: bool) -> SoundBank
    ensures { view result.bank
        ≡ with_challengers (view b.bank) (map (marked standard d.dur.ms live) (view b.bank).challengers) }
{
    let mut c = b.bank;
    for i in 0..b.bank.challengers_len {
        c.challengers[i] = mark_one(c.challengers[i], d, live);
    }
    SoundBank { bank: c }
}
