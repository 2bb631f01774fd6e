// A bank that refusals 1 and 2 let pass.
ghost use Rattle.bank.specs.Parts.{Countable};
ghost use Rattle.bank.specs.Props.{props};

use crate::SoundBank;

// A sound bank whose marks and gaps can be counted further: whoever is handed one has not to ask again.
#[derive(Clone, Copy)]
pub struct OpenBank {
    pub bank: SoundBank,
    pub ghost countable: { Countable bank.bank } by { Prim.hlevel props },
}
