// A bank that refusal 1 lets pass.
ghost use Rattle.bank.specs.Props.{props};
ghost use Rattle.bank.specs.Sturdy.{Sturdy};

use crate::TimingBank;

// A sound bank: whoever is handed one has not to ask again.
#[derive(Clone, Copy)]
pub struct SoundBank {
    pub bank: TimingBank,
    pub ghost sturdy: { Sturdy bank } by { Prim.hlevel props },
}
