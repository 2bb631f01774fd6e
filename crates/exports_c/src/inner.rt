// What the layers call on a state that is known to be sound, for measuring: each export asks what it needs.
ghost use Rattle.std.specs.Prelude.{◌≡◌, T};
ghost use Rattle.ranges.specs.Settings.{standard};
ghost use Rattle.marks.specs.Lists.{duration};
ghost use Rattle.tracker.specs.Model.{view};
ghost use Rattle.tracker.specs.Sound.{sound};
ghost use Rattle.tracker.specs.Steps.{on_mark};
ghost use Rattle.plain_tracker.specs.Plain.{tracker_of};
ghost use Rattle.bank_model.specs.Steps as Bank;
ghost use Rattle.bank.specs.View as Banked;
ghost use Rattle.bank.specs.Parts.{Countable};
ghost use Rattle.bank.specs.Switching.{Chosen};
ghost use Rattle.plain.specs.Plain.{bank_of, plain_bank};
ghost use Rattle.exports.specs.Bank.{ChangedTo, Held, Neat, taken_to};
ghost use Rattle.exports.specs.Tracker.{NeatTracker};

use exports::inner::{BankChanged, BankTaken};
use plain::PlainBank;
use plain_tracker::PlainTracker;

// One mark, with no test of the tracker or the mark.
#[unsafe(no_mangle)]
pub extern "C" fn hullathan_inner_tracker_on_mark(t: PlainTracker, dur_ms: f32) -> PlainTracker
    requires t { T (sound standard (tracker_of t)) }
    requires t_2 { T (duration dur_ms) }
    ensures { (view (tracker_of result) ≡ on_mark standard (view (tracker_of t)) dur_ms)
        × (T (sound standard (tracker_of result)) × NeatTracker result) }
{
    exports::inner::hullathan_inner_tracker_on_mark(t, dur_ms)
}

// Hands back what it was handed: what the passing of a tracker costs.
#[unsafe(no_mangle)]
pub extern "C" fn hullathan_inner_tracker_same(t: PlainTracker, dur_ms: f32) -> PlainTracker
    ensures { result ≡ t }
{
    exports::inner::hullathan_inner_tracker_same(t, dur_ms)
}

// One mark to a bank, with no test of the bank, the primary or the mark.
#[unsafe(no_mangle)]
pub extern "C" fn hullathan_inner_bank_on_mark(
    b: PlainBank,
    p: PlainTracker,
    dur_ms: f32,
    live: bool,
) -> BankChanged
    requires held { Held b × Countable (bank_of b) }
    requires t { T (sound standard (tracker_of p)) }
    requires t_2 { T (duration dur_ms) }
    ensures { ChangedTo (Bank.on_mark standard (Banked.view (bank_of b)) (view (tracker_of p)) dur_ms live) result
        × (Held result.bank × Neat result.bank) }
{
    exports::inner::hullathan_inner_bank_on_mark(b, p, dur_ms, live)
}

// One gap to a bank, with no test of the bank, the primary or the gap.
#[unsafe(no_mangle)]
pub extern "C" fn hullathan_inner_bank_on_gap(
    b: PlainBank,
    p: PlainTracker,
    dur_ms: f32,
) -> PlainBank
    requires held { Held b × Countable (bank_of b) }
    requires t { T (sound standard (tracker_of p)) }
    requires t_2 { T (duration dur_ms) }
    ensures { (Banked.view (bank_of result)
        ≡ Bank.on_gap standard (Banked.view (bank_of b)) (view (tracker_of p)) dur_ms)
        × (Held result × Neat result) }
{
    exports::inner::hullathan_inner_bank_on_gap(b, p, dur_ms)
}

// A switch call, with no test of the bank or the primary.
#[unsafe(no_mangle)]
pub extern "C" fn hullathan_inner_bank_take_switch(
    b: PlainBank,
    p: PlainTracker,
    serial: u64,
) -> BankTaken
    requires held { Held b × Chosen (bank_of b) (tracker_of p) }
    requires t { T (sound standard (tracker_of p)) }
    ensures { (taken_to result ≡ Bank.take_switch (Banked.view (bank_of b)) (view (tracker_of p)) serial)
        × (Held result.bank × Neat result.bank × T (sound standard (tracker_of result.primary))
        × NeatTracker result.primary) }
{
    exports::inner::hullathan_inner_bank_take_switch(b, p, serial)
}

// Hands back the plain form of the bank that it was handed in plain form: what the passing of a bank costs.
#[unsafe(no_mangle)]
pub extern "C" fn hullathan_inner_bank_same(b: PlainBank) -> PlainBank
    ensures { result ≡ plain_bank (bank_of b) }
{
    exports::inner::hullathan_inner_bank_same(b)
}
