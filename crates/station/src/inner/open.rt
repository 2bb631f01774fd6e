// A station that a call is accepted on.
ghost use Rattle.station.specs.Parts.{Open, Solid};
ghost use Rattle.bank.specs.Props.{props};

use crate::Station;
use bank::{OpenBank, SoundBank};
use tracker::SoundTracker;

// A sound station whose marks, gaps and calls are counted further: what an event is done to has not to be asked again.
#[derive(Clone, Copy)]
pub struct OpenStation {
    pub station: Station,
    pub ghost solid: { Solid station } by { Prim.hlevel props },
    pub ghost unfull: { Open station } by { Prim.hlevel props },
}

impl OpenStation {
    ghost use Rattle.std.specs.Prelude.{◌≡◌};

    // Its primary.
    pub(crate) fn primary(&self) -> SoundTracker
        ensures { result.tracker ≡ self.now.station.primary }
    {
        SoundTracker {
            tracker: self.station.primary,
        }
    }

    // Its bank.
    pub(crate) fn bank(&self) -> OpenBank
        ensures { result.bank.bank ≡ self.now.station.bank }
    {
        OpenBank {
            bank: SoundBank {
                bank: self.station.bank,
            },
        }
    }
}
