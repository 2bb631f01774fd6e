// The switch call on a bank and on the tracker that a host lends, both in plain form (document 01, "TimingBank").
#![tactic(auto)]

ghost use Rattle.std.specs.Prelude.{◌≡◌};
ghost use Rattle.plain_switch.specs.Switch.{Exchanges, switch_code};
ghost use Rattle.plain_switch.specs.Parts.{told_as};

use bank::{Switched, TimingBank};
use plain::PlainBank;
use plain_tracker::PlainTracker;
use refusals::Refusal;
use tracker::SpeedTracker;

// What a switch call makes of what a host lends: whether it is refused, or else something was exchanged; the bank, the
// primary, and the primary's serial.
#[derive(Clone, Copy)]
pub struct BankExchanged {
    pub told: Result<bool, Refusal>,
    pub bank: PlainBank,
    pub primary: PlainTracker,
    pub serial: u64,
}

// The code of a switch call as a host reads it: 2 switched, 3 nothing to do, or its refusal's.
pub fn switch_code(told: Result<bool, Refusal>) -> u8
    ensures { result ≡ switch_code told }
{
    match told {
        Ok(true) => 2,
        Ok(false) => 3,
        Err(refusal) => refusal.host_code(),
    }
}

// The answer k in plain form: the tracker and its serial stay where nothing was exchanged, and all three where the
// call is refused.
pub(crate) fn told(b: PlainBank, p: PlainTracker, serial: u64, k: Switched) -> BankExchanged
    ensures { result ≡ told_as b p serial k k.flag }
{
    match k.flag {
        Ok(true) => BankExchanged {
            told: Ok(true),
            bank: PlainBank::from(k.bank),
            primary: PlainTracker::from(k.primary),
            serial: k.serial,
        },
        Ok(false) => BankExchanged {
            told: Ok(false),
            bank: PlainBank::from(k.bank),
            primary: p,
            serial,
        },
        Err(r) => BankExchanged {
            told: Err(r),
            bank: b,
            primary: p,
            serial,
        },
    }
}

// A switch, where a choice is pending: the challenger and the primary, with its serial, are exchanged.
pub fn exchanged(b: PlainBank, p: PlainTracker, serial: u64) -> BankExchanged
    ensures { Exchanges b p serial (switch_code result.told) result.bank result.primary result.serial }
{
    if let Ok(bank) = TimingBank::try_from(b) {
        if let Ok(primary) = SpeedTracker::try_from(p) {
            return told(b, p, serial, bank.take_switch(primary, serial));
        }
    }
    BankExchanged {
        told: Err(Refusal::UnsoundState),
        bank: b,
        primary: p,
        serial,
    }
}
