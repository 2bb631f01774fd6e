// The calls of the crate `bank`: the bank in its plain form by value, and an answer as a struct of plain numbers.
ghost use Rattle.std.specs.Prelude.{◌≡◌, ◌+◌, take};
ghost use Rattle.std.proofs.Math.ListN.{get_elem?};
ghost use Rattle.ranges.specs.Settings.{standard};
ghost use Rattle.tracker.specs.Answers.{count, unless};
ghost use Rattle.tracker.specs.Model as Tracked;
ghost use Rattle.bank_model.specs.Steps.{clear, on_gap, on_mark, on_ready, take_switch};
ghost use Rattle.bank.specs.View.{view};
ghost use Rattle.bank.specs.Answers.{
  bank_then,
  clear_refusal,
  heard_refusal,
  ready_refusal,
  showing,
  switch_refusal,
};
ghost use Rattle.plain_tracker.specs.Plain.{tracker_of};
ghost use Rattle.plain.specs.Plain.{bank_of};
ghost use Rattle.exports.specs.Bank.{
  BankAnswers,
  BankHears,
  BankStarted,
  BankSwitches,
  challenged,
  forms_then,
  logged,
  plain_then,
  tallied,
};

use exports::of_bank::{
    BankAnswered, BankChallenger, BankHeard, BankLogged, BankSwitched, BankTally,
};
use plain::PlainBank;
use plain_tracker::PlainTracker;

// A fresh bank; refused by 3.
#[unsafe(no_mangle)]
pub extern "C" fn hullathan_bank_new(width: usize, switching: bool) -> BankHeard
    ensures { BankStarted width switching result }
{
    exports::of_bank::hullathan_bank_new(width, switching)
}

// How many hypotheses live, the primary included.
#[unsafe(no_mangle)]
pub extern "C" fn hullathan_bank_hypotheses(b: PlainBank) -> BankTally
    ensures { result ≡ tallied
        (unless (plain_then b (bank_then standard (bank_of b) 0)) (count (1 + b.challengers_len))) }
{
    exports::of_bank::hullathan_bank_hypotheses(b)
}

// How many marks were scored.
#[unsafe(no_mangle)]
pub extern "C" fn hullathan_bank_marks_seen(b: PlainBank) -> BankTally
    ensures { result ≡ tallied
        (unless (plain_then b (bank_then standard (bank_of b) 0)) (count b.marks_seen)) }
{
    exports::of_bank::hullathan_bank_marks_seen(b)
}

// How many gaps were scored.
#[unsafe(no_mangle)]
pub extern "C" fn hullathan_bank_gaps_seen(b: PlainBank) -> BankTally
    ensures { result ≡ tallied
        (unless (plain_then b (bank_then standard (bank_of b) 0)) (count b.gaps_seen)) }
{
    exports::of_bank::hullathan_bank_gaps_seen(b)
}

// The i-th challenger, in bank order.
#[unsafe(no_mangle)]
pub extern "C" fn hullathan_bank_challenger(b: PlainBank, i: usize) -> BankChallenger
    ensures { result ≡ challenged
        (showing (plain_then b (bank_then standard (bank_of b) 0))
        (get_elem? (take b.challengers_len (bank_of b).challengers) i)) }
{
    exports::of_bank::hullathan_bank_challenger(b, i)
}

// The i-th switch record, oldest first.
#[unsafe(no_mangle)]
pub extern "C" fn hullathan_bank_switch_record(b: PlainBank, i: usize) -> BankLogged
    ensures { result ≡ logged
        (showing (plain_then b (bank_then standard (bank_of b) 0))
        (get_elem? (take b.log_len (bank_of b).log) i)) }
{
    exports::of_bank::hullathan_bank_switch_record(b, i)
}

// Every challenger leaves, with all evidence and the choice.
#[unsafe(no_mangle)]
pub extern "C" fn hullathan_bank_clear(b: PlainBank) -> BankAnswered
    ensures { BankAnswers (plain_then b (clear_refusal standard (bank_of b))) b
        (clear (view (bank_of b))) result }
{
    exports::of_bank::hullathan_bank_clear(b)
}

// The primary just became ready from marks.
#[unsafe(no_mangle)]
pub extern "C" fn hullathan_bank_on_ready(
    b: PlainBank,
    primary: PlainTracker,
    marks: &[f32],
) -> BankAnswered
    ensures { BankAnswers
        (forms_then b primary (ready_refusal standard (bank_of b) (tracker_of primary) marks.now)) b
        (on_ready standard (view (bank_of b)) (Tracked.view (tracker_of primary)) marks.now) result }
{
    exports::of_bank::hullathan_bank_on_ready(b, primary, marks)
}

// One gap, beside the primary.
#[unsafe(no_mangle)]
pub extern "C" fn hullathan_bank_on_gap(
    b: PlainBank,
    primary: PlainTracker,
    dur_ms: f32,
) -> BankHeard
    ensures { BankHears
        (forms_then b primary (heard_refusal standard (bank_of b) (tracker_of primary) dur_ms)) b
        (on_gap standard (view (bank_of b)) (Tracked.view (tracker_of primary)) dur_ms) result }
{
    exports::of_bank::hullathan_bank_on_gap(b, primary, dur_ms)
}

// One mark, beside the primary, which has learnt it if it is live.
#[unsafe(no_mangle)]
pub extern "C" fn hullathan_bank_on_mark(
    b: PlainBank,
    primary: PlainTracker,
    dur_ms: f32,
    live: bool,
) -> BankAnswered
    ensures { BankAnswers
        (forms_then b primary (heard_refusal standard (bank_of b) (tracker_of primary) dur_ms)) b
        (on_mark standard (view (bank_of b)) (Tracked.view (tracker_of primary)) dur_ms live)
        result }
{
    exports::of_bank::hullathan_bank_on_mark(b, primary, dur_ms, live)
}

// A switch, where a choice is pending: the challenger and the primary, with its serial, are exchanged.
#[unsafe(no_mangle)]
pub extern "C" fn hullathan_bank_take_switch_by_value(
    b: PlainBank,
    primary: PlainTracker,
    serial: u64,
) -> BankSwitched
    ensures { BankSwitches
        (forms_then b primary (switch_refusal standard (bank_of b) (tracker_of primary))) b primary
        serial (take_switch (view (bank_of b)) (Tracked.view (tracker_of primary)) serial) result }
{
    exports::of_bank::hullathan_bank_take_switch_by_value(b, primary, serial)
}
