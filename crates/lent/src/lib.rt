// The switch call with the host's own tracker lent (document 01, "TimingBank").
#![tactic(auto)]

ghost use Rattle.ranges.specs.Settings.{standard};
ghost use Rattle.tracker.specs.Model as Tracked;
ghost use Rattle.bank_model.specs.Steps.{take_switch};
ghost use Rattle.bank.specs.View.{view};
ghost use Rattle.bank.specs.Answers.{Switches, switch_refusal};
ghost use Rattle.lent.specs.Lent.{together};

use bank::TimingBank;
use refusals::Refusal;
use tracker::SpeedTracker;

// The answer of a switch call but for the primary: whether the two were exchanged, the bank, and the primary's serial.
#[derive(Clone, Copy)]
pub struct LentSwitched {
    pub flag: Result<bool, Refusal>,
    pub bank: TimingBank,
    pub serial: u64,
}

// "A host may lend its own tracker to the switch call and find the exchanged one in it." A refused call leaves it as it
// was.
pub fn take_switch(bank: TimingBank, primary: &mut SpeedTracker, serial: u64) -> LentSwitched
    ensures { Switches standard (switch_refusal standard bank primary.old) bank primary.old serial
        (take_switch (view bank) (Tracked.view primary.old) serial) (together result primary.new) }
{
    let k = bank.take_switch(*primary, serial);
    *primary = k.primary;
    LentSwitched {
        flag: k.flag,
        bank: k.bank,
        serial: k.serial,
    }
}
