// What the layers call on a state that is known to be sound, for measuring: each function asks what it needs.
ghost use Rattle.std.specs.Prelude.{◌≡◌, T};
ghost use Rattle.ranges.specs.Settings.{standard};
ghost use Rattle.marks.specs.Lists.{duration};
ghost use Rattle.tracker.specs.Model.{view};
ghost use Rattle.tracker.specs.Sound.{sound};
ghost use Rattle.tracker.specs.Steps.{on_mark};
ghost use Rattle.plain_tracker.specs.Plain.{tracker_of};
ghost use Rattle.bank_model.specs.Steps as Bank;
ghost use Rattle.bank.specs.View as Banked;
ghost use Rattle.bank.specs.Parts.{Countable};
ghost use Rattle.bank.specs.Switching.{Chosen};
ghost use Rattle.plain.specs.Plain.{bank_of, plain_bank};
ghost use Rattle.exports.specs.Bank.{ChangedTo, Held, Neat, taken_to};
ghost use Rattle.exports.specs.Tracker.{NeatTracker};

use bank::{OpenBank, SoundBank};
use bank_model::MOST_LEFT;
use plain::from::bank_from;
use plain::to::plain_departures;
use plain::{PlainBank, PlainDeparture};
use plain_tracker::PlainTracker;
use plain_tracker::from::tracker_of;
use ranges::Duration;
use tracker::SoundTracker;

// A bank after a call, and those that left it in the call.
#[repr(C)]
#[derive(Clone, Copy)]
pub struct BankChanged {
    pub bank: PlainBank,
    pub left: [PlainDeparture; MOST_LEFT],
    pub left_len: usize,
}

// A bank and a primary after a switch call, the primary's serial, and whether the two were exchanged.
#[repr(C)]
#[derive(Clone, Copy)]
pub struct BankTaken {
    pub bank: PlainBank,
    pub primary: PlainTracker,
    pub serial: u64,
    pub switched: bool,
}

// One mark, with no test of the tracker or the mark.
pub fn hullathan_inner_tracker_on_mark(t: PlainTracker, dur_ms: f32) -> PlainTracker
    requires t { T (sound standard (tracker_of t)) }
    requires t_2 { T (duration dur_ms) }
    ensures { (view (tracker_of result) ≡ on_mark standard (view (tracker_of t)) dur_ms)
        × (T (sound standard (tracker_of result)) × NeatTracker result) }
{
    let s = SoundTracker {
        tracker: tracker_of(t),
    };
    let d = Duration { ms: dur_ms };
    PlainTracker::from(tracker::inner::mark::on_mark(s, d).tracker)
}

// Hands back what it was handed: what the passing of a tracker costs.
pub fn hullathan_inner_tracker_same(t: PlainTracker, _dur_ms: f32) -> PlainTracker
    ensures { result ≡ t }
{
    t
}

// One mark to a bank, with no test of the bank, the primary or the mark.
pub fn hullathan_inner_bank_on_mark(
    b: PlainBank,
    p: PlainTracker,
    dur_ms: f32,
    live: bool,
) -> BankChanged
    requires held { Held b × Countable (bank_of b) }
    requires t { T (sound standard (tracker_of p)) }
    requires t_2 { T (duration dur_ms) }
    ensures { ChangedTo (Bank.on_mark standard (Banked.view (bank_of b)) (view (tracker_of p)) dur_ms live) result
        × (Held result.bank × Neat result.bank) }
{
    let c = OpenBank {
        bank: SoundBank { bank: bank_from(b) },
    };
    let q = SoundTracker {
        tracker: tracker_of(p),
    };
    let d = Duration { ms: dur_ms };
    let m = bank::inner::mark::on_mark(c, q, d, live);
    BankChanged {
        bank: PlainBank::from(m.bank.bank),
        left: plain_departures(&m.gone.left, m.gone.left_len),
        left_len: m.gone.left_len,
    }
}

// One gap to a bank, with no test of the bank, the primary or the gap.
pub fn hullathan_inner_bank_on_gap(b: PlainBank, p: PlainTracker, dur_ms: f32) -> PlainBank
    requires held { Held b × Countable (bank_of b) }
    requires t { T (sound standard (tracker_of p)) }
    requires t_2 { T (duration dur_ms) }
    ensures { (Banked.view (bank_of result)
        ≡ Bank.on_gap standard (Banked.view (bank_of b)) (view (tracker_of p)) dur_ms)
        × (Held result × Neat result) }
{
    let c = OpenBank {
        bank: SoundBank { bank: bank_from(b) },
    };
    let q = SoundTracker {
        tracker: tracker_of(p),
    };
    let d = Duration { ms: dur_ms };
    PlainBank::from(bank::inner::gap::on_gap(c, q, d).bank)
}

// A switch call, with no test of the bank or the primary.
pub fn hullathan_inner_bank_take_switch(b: PlainBank, p: PlainTracker, serial: u64) -> BankTaken
    requires held { Held b × Chosen (bank_of b) (tracker_of p) }
    requires t { T (sound standard (tracker_of p)) }
    ensures { (taken_to result ≡ Bank.take_switch (Banked.view (bank_of b)) (view (tracker_of p)) serial)
        × (Held result.bank × Neat result.bank × T (sound standard (tracker_of result.primary))
        × NeatTracker result.primary) }
{
    let c = SoundBank { bank: bank_from(b) };
    let q = SoundTracker {
        tracker: tracker_of(p),
    };
    let t = bank::inner::switch::take_switch(c, q, serial);
    BankTaken {
        bank: PlainBank::from(t.bank.bank),
        primary: PlainTracker::from(t.primary.tracker),
        serial: t.serial,
        switched: t.switched,
    }
}

// Hands back the plain form of the bank that it was handed in plain form: what the passing of a bank costs.
pub fn hullathan_inner_bank_same(b: PlainBank) -> PlainBank
    ensures { result ≡ plain_bank (bank_of b) }
{
    PlainBank::from(bank_from(b))
}
