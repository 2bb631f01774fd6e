// The switch call with the host's own tracker lent, of the crate `lent`: the bank in its plain form by value, the exchanged tracker in
// the lent one's, and the answer as a struct of plain numbers. A form that is no bank's or no tracker's is refused by 1.
ghost use Rattle.std.specs.Prelude.{◌≡◌};
ghost use Rattle.ranges.specs.Settings.{standard};
ghost use Rattle.tracker.specs.Model as Tracked;
ghost use Rattle.bank_model.specs.Steps.{take_switch};
ghost use Rattle.bank.specs.View.{view};
ghost use Rattle.bank.specs.Answers.{switch_refusal};
ghost use Rattle.plain_tracker.specs.Plain.{tracker_of};
ghost use Rattle.plain.specs.Plain.{bank_of};
ghost use Rattle.exports.specs.Bank.{BankSwitches, forms_then};
ghost use Rattle.exports.specs.Lent.{found, lent_on};

use crate::of_bank::{exchanged, handed, read_as};
use crate::of_tracker::{code_of, read_as as read_tracker};
use lent::LentSwitched;
use plain::PlainBank;
use plain_tracker::PlainTracker;

// The answer of a switch call but for the primary: whether the two were exchanged, the bank, and the primary's serial.
#[repr(C)]
#[derive(Clone, Copy)]
pub struct BankLent {
    pub code: u8,
    pub yes: bool,
    pub bank: PlainBank,
    pub serial: u64,
}

// The answer as C reads it.
pub(crate) fn lent_answer(b: PlainBank, a: LentSwitched) -> BankLent
    ensures { result ≡ lent_on b a }
{
    BankLent {
        code: code_of(a.flag),
        yes: a.flag.unwrap_or(false),
        bank: handed(b, a.flag, a.bank),
        serial: a.serial,
    }
}

// A switch, where a choice is pending: the challenger and the lent primary, with its serial, are exchanged.
pub fn hullathan_bank_take_switch_lent(
    b: PlainBank,
    primary: &mut PlainTracker,
    serial: u64,
) -> BankLent
    ensures { BankSwitches (forms_then b primary.old (switch_refusal standard (bank_of b) (tracker_of primary.old))) b primary.old serial (take_switch (view (bank_of b)) (Tracked.view (tracker_of primary.old)) serial) (found result primary.new) }
{
    let mut lent = read_tracker(*primary);
    let answer = lent::take_switch(read_as(b), &mut lent, serial);
    *primary = exchanged(*primary, answer.flag, lent);
    lent_answer(b, answer)
}
