// The switch call with the host's own tracker lent, of the crate `lent`.
ghost use Rattle.ranges.specs.Settings.{standard};
ghost use Rattle.tracker.specs.Model as Tracked;
ghost use Rattle.bank_model.specs.Steps.{take_switch};
ghost use Rattle.bank.specs.View.{view};
ghost use Rattle.bank.specs.Answers.{switch_refusal};
ghost use Rattle.plain_tracker.specs.Plain.{tracker_of};
ghost use Rattle.plain.specs.Plain.{bank_of};
ghost use Rattle.exports.specs.Bank.{BankSwitches, forms_then};
ghost use Rattle.exports.specs.Lent.{found};

use exports::of_lent::BankLent;
use plain::PlainBank;
use plain_tracker::PlainTracker;

// A switch, where a choice is pending: the challenger and the lent primary, with its serial, are exchanged.
#[unsafe(no_mangle)]
pub extern "C" fn hullathan_bank_take_switch_lent(
    b: PlainBank,
    primary: &mut PlainTracker,
    serial: u64,
) -> BankLent
    ensures { BankSwitches
        (forms_then b primary.old (switch_refusal standard (bank_of b) (tracker_of primary.old))) b
        primary.old serial
        (take_switch (view (bank_of b)) (Tracked.view (tracker_of primary.old)) serial)
        (found result primary.new) }
{
    exports::of_lent::hullathan_bank_take_switch_lent(b, primary, serial)
}
