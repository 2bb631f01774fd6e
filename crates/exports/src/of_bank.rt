// The calls of the crate `bank`: the bank and the primary in their plain forms by value, and an answer as a struct of plain numbers.
// A form that is no bank's or no tracker's is refused by 1.
ghost use Rattle.std.specs.Prelude.{◌≡◌, ◌+◌, take};
ghost use Rattle.std.proofs.Math.ListN.{get_elem?};
ghost use Rattle.ranges.specs.Settings.{standard};
ghost use Rattle.tracker.specs.Answers.{count, told, unless};
ghost use Rattle.tracker.specs.Model as Tracked;
ghost use Rattle.bank_model.specs.Steps.{clear, on_gap, on_mark, on_ready, take_switch};
ghost use Rattle.bank.specs.View.{view};
ghost use Rattle.bank.specs.Answers.{bank_then, clear_refusal, heard_refusal, of_shown, ready_refusal, showing, switch_refusal};
ghost use Rattle.plain_tracker.specs.Plain.{tracker_of};
ghost use Rattle.plain.specs.Plain.{bank_of};
ghost use Rattle.exports.specs.Bank.{BankAnswers, BankHears, BankStarted, BankSwitches, ReadAs, challenged, forms_then, handed_on, heard_on, logged, passed_on, plain_then, primary_on, stopped_at, switched_on, tallied, unlogged};

use crate::of_tracker::{code_of, read_as as read_tracker};
use bank::{Switched, TimingBank};
use bank_model::{Departures, MOST_LEFT, SwitchRecord};
use plain::from::NO_RECORD;
use plain::to::{blank_hypothesis, no_departure, plain_departures};
use plain::{PlainBank, PlainDeparture, PlainHypothesis};
use plain_tracker::PlainTracker;
use refusals::Refusal;
use rival::TimingHypothesis;
use tracker::SpeedTracker;

// The answer of a call that may send challengers away: the code is 0 or the number of the refusal.
#[repr(C)]
#[derive(Clone, Copy)]
pub struct BankAnswered {
    pub code: u8,
    pub bank: PlainBank,
    pub left: [PlainDeparture; MOST_LEFT],
    pub left_len: usize,
}

// The answer of a call that none leaves at.
#[repr(C)]
#[derive(Clone, Copy)]
pub struct BankHeard {
    pub code: u8,
    pub bank: PlainBank,
}

// The answer of a switch call: whether the two were exchanged.
#[repr(C)]
#[derive(Clone, Copy)]
pub struct BankSwitched {
    pub code: u8,
    pub yes: bool,
    pub bank: PlainBank,
    pub primary: PlainTracker,
    pub serial: u64,
}

// The answer of a call that tells a count.
#[repr(C)]
#[derive(Clone, Copy)]
pub struct BankTally {
    pub code: u8,
    pub value: u64,
}

// The answer of a call that tells of a challenger: `has` is false where there is none.
#[repr(C)]
#[derive(Clone, Copy)]
pub struct BankChallenger {
    pub code: u8,
    pub has: bool,
    pub challenger: PlainHypothesis,
}

// The answer of a call that tells of a switch record.
#[repr(C)]
#[derive(Clone, Copy)]
pub struct BankLogged {
    pub code: u8,
    pub has: bool,
    pub entry: SwitchRecord,
}

// The bank of a form; where the form is no bank's, one of width 0, which every call refuses by 1.
pub(crate) fn read_as(b: PlainBank) -> TimingBank
    ensures { ReadAs b result }
{
    match TimingBank::try_from(b) {
        Ok(c) => c,
        Err(_) => TimingBank {
            width: 0,
            ..TimingBank::new(1, false).bank
        },
    }
}

// The form that a call leaves: as it was where the call is refused.
pub(crate) fn handed<A: Copy>(b: PlainBank, said: Result<A, Refusal>, c: TimingBank) -> PlainBank
    ensures { result ≡ handed_on b said c }
{
    match said {
        Ok(_) => PlainBank::from(c),
        Err(_) => b,
    }
}

// Each answer as C reads it: of a call on the form b that left the bank c.
pub(crate) fn answered(
    b: PlainBank,
    said: Result<Departures, Refusal>,
    c: TimingBank,
) -> BankAnswered
    ensures { result ≡ passed_on b said c }
{
    match said {
        Ok(gone) => BankAnswered {
            code: 0,
            bank: PlainBank::from(c),
            left: plain_departures(&gone.left, gone.left_len),
            left_len: gone.left_len,
        },
        Err(r) => BankAnswered {
            code: u8::from(r),
            bank: b,
            left: [no_departure(); MOST_LEFT],
            left_len: 0,
        },
    }
}

pub(crate) fn heard(b: PlainBank, said: Result<(), Refusal>, c: TimingBank) -> BankHeard
    ensures { result ≡ heard_on b said c }
{
    BankHeard {
        code: code_of(said),
        bank: handed(b, said, c),
    }
}

// The form that a switch call leaves of the primary: as it was where nothing was exchanged.
pub(crate) fn exchanged(
    p: PlainTracker,
    said: Result<bool, Refusal>,
    t: SpeedTracker,
) -> PlainTracker
    ensures { result ≡ primary_on p said t }
{
    match said {
        Ok(true) => PlainTracker::from(t),
        _ => p,
    }
}

pub(crate) fn switched(b: PlainBank, p: PlainTracker, k: Switched) -> BankSwitched
    ensures { result ≡ switched_on b p k k.flag }
{
    BankSwitched {
        code: code_of(k.flag),
        yes: k.flag.unwrap_or(false),
        bank: handed(b, k.flag, k.bank),
        primary: exchanged(p, k.flag, k.primary),
        serial: k.serial,
    }
}

pub(crate) fn tally(n: Result<u64, Refusal>) -> BankTally
    ensures { result ≡ tallied (told count n) }
{
    BankTally {
        code: code_of(n),
        value: n.unwrap_or(0),
    }
}

// A challenger refused by a number, or by none and absent.
pub(crate) fn no_challenger(code: u8) -> BankChallenger
    ensures { result ≡ stopped_at code }
{
    BankChallenger {
        code,
        has: false,
        challenger: blank_hypothesis(),
    }
}

pub(crate) fn challenger(c: Result<Option<TimingHypothesis>, Refusal>) -> BankChallenger
    ensures { result ≡ challenged (of_shown c) }
{
    match c {
        Ok(Some(h)) => BankChallenger {
            code: 0,
            has: true,
            challenger: PlainHypothesis::from(h),
        },
        Ok(None) => no_challenger(0),
        Err(r) => no_challenger(u8::from(r)),
    }
}

// No switch record.
pub(crate) fn no_record(code: u8) -> BankLogged
    ensures { result ≡ unlogged code }
{
    BankLogged {
        code,
        has: false,
        entry: NO_RECORD,
    }
}

pub(crate) fn entry(l: Result<Option<SwitchRecord>, Refusal>) -> BankLogged
    ensures { result ≡ logged (of_shown l) }
{
    match l {
        Ok(Some(e)) => BankLogged {
            code: 0,
            has: true,
            entry: e,
        },
        Ok(None) => no_record(0),
        Err(r) => no_record(u8::from(r)),
    }
}

// A fresh bank; refused by 3.
pub fn hullathan_bank_new(width: usize, switching: bool) -> BankHeard
    ensures { BankStarted width switching result }
{
    let fresh = TimingBank::new(width, switching);
    BankHeard {
        code: code_of(fresh.told),
        bank: PlainBank::from(fresh.bank),
    }
}

// How many hypotheses live, the primary included.
pub fn hullathan_bank_hypotheses(b: PlainBank) -> BankTally
    ensures { result ≡ tallied (unless (plain_then b (bank_then standard (bank_of b) 0)) (count (1 + b.challengers_len))) }
{
    tally(read_as(b).hypotheses())
}

// How many marks were scored.
pub fn hullathan_bank_marks_seen(b: PlainBank) -> BankTally
    ensures { result ≡ tallied (unless (plain_then b (bank_then standard (bank_of b) 0)) (count b.marks_seen)) }
{
    tally(read_as(b).marks_seen())
}

// How many gaps were scored.
pub fn hullathan_bank_gaps_seen(b: PlainBank) -> BankTally
    ensures { result ≡ tallied (unless (plain_then b (bank_then standard (bank_of b) 0)) (count b.gaps_seen)) }
{
    tally(read_as(b).gaps_seen())
}

// The i-th challenger, in bank order.
pub fn hullathan_bank_challenger(b: PlainBank, i: usize) -> BankChallenger
    ensures { result ≡ challenged (showing (plain_then b (bank_then standard (bank_of b) 0)) (get_elem? (take b.challengers_len (bank_of b).challengers) i)) }
{
    challenger(read_as(b).challenger(i))
}

// The i-th switch record, oldest first.
pub fn hullathan_bank_switch_record(b: PlainBank, i: usize) -> BankLogged
    ensures { result ≡ logged (showing (plain_then b (bank_then standard (bank_of b) 0)) (get_elem? (take b.log_len (bank_of b).log) i)) }
{
    entry(read_as(b).switch_record(i))
}

// Every challenger leaves, with all evidence and the choice.
pub fn hullathan_bank_clear(b: PlainBank) -> BankAnswered
    ensures { BankAnswers (plain_then b (clear_refusal standard (bank_of b))) b (clear (view (bank_of b))) result }
{
    let mut c = read_as(b);
    let said = c.clear();
    answered(b, said, c)
}

// The primary just became ready from marks.
pub fn hullathan_bank_on_ready(b: PlainBank, primary: PlainTracker, marks: &[f32]) -> BankAnswered
    ensures { BankAnswers (forms_then b primary (ready_refusal standard (bank_of b) (tracker_of primary) marks.now)) b (on_ready standard (view (bank_of b)) (Tracked.view (tracker_of primary)) marks.now) result }
{
    let mut c = read_as(b);
    let said = c.on_ready(read_tracker(primary), marks);
    answered(b, said, c)
}

// One gap, beside the primary.
pub fn hullathan_bank_on_gap(b: PlainBank, primary: PlainTracker, dur_ms: f32) -> BankHeard
    ensures { BankHears (forms_then b primary (heard_refusal standard (bank_of b) (tracker_of primary) dur_ms)) b (on_gap standard (view (bank_of b)) (Tracked.view (tracker_of primary)) dur_ms) result }
{
    let mut c = read_as(b);
    let said = c.on_gap(read_tracker(primary), dur_ms);
    heard(b, said, c)
}

// One mark, beside the primary, which has learnt it if it is live.
pub fn hullathan_bank_on_mark(
    b: PlainBank,
    primary: PlainTracker,
    dur_ms: f32,
    live: bool,
) -> BankAnswered
    ensures { BankAnswers (forms_then b primary (heard_refusal standard (bank_of b) (tracker_of primary) dur_ms)) b (on_mark standard (view (bank_of b)) (Tracked.view (tracker_of primary)) dur_ms live) result }
{
    let mut c = read_as(b);
    let said = c.on_mark(read_tracker(primary), dur_ms, live);
    answered(b, said, c)
}

// A switch, where a choice is pending: the challenger and the primary, with its serial, are exchanged.
pub fn hullathan_bank_take_switch_by_value(
    b: PlainBank,
    primary: PlainTracker,
    serial: u64,
) -> BankSwitched
    ensures { BankSwitches (forms_then b primary (switch_refusal standard (bank_of b) (tracker_of primary))) b primary serial (take_switch (view (bank_of b)) (Tracked.view (tracker_of primary)) serial) result }
{
    let k = read_as(b).take_switch(read_tracker(primary), serial);
    switched(b, primary, k)
}
