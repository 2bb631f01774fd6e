// A switch (the Rust's `take_switch` and `push_log`).
ghost use Rattle.std.specs.Prelude.{◌≡◌, ◌<◌, true, [], ◌∷◌, ◌++◌, length, drop, Some};
ghost use Rattle.std.proofs.Math.ListN.{get_elem?};
ghost use Rattle.ranges.specs.Settings.{standard};
ghost use Rattle.tracker.specs.Model as Tracked;
ghost use Rattle.bank_model.specs.Steps.{formerly, logged, exchanged, observed, take_switch};
ghost use Rattle.rival.specs.View.{view_hyp};
ghost use Rattle.bank.specs.View.{view};
ghost use Rattle.rival.specs.Parts.{Fit};
ghost use Rattle.bank.specs.Sturdy.{Recorded};
ghost use Rattle.bank.specs.Parts.{with_log};
ghost use Rattle.bank.specs.Switching.{taking, noting, Chosen, Took};

use crate::SoundBank;
use bank_model::inner::scores::centroid_logs;
use bank_model::{Origin, SwitchRecord};
use rival::TimingHypothesis;
use tracker::SoundTracker;
use tracker::inner::gaps::settle;

// A bank and a primary after a switch call, the primary's serial, and whether the two were exchanged.
#[derive(Clone, Copy)]
pub struct Taken {
    pub bank: SoundBank,
    pub primary: SoundTracker,
    pub serial: u64,
    pub switched: bool,
}

// e is the latest of the log; the oldest of sixteen goes.
pub(crate) fn push_log(b: SoundBank, e: SwitchRecord) -> SoundBank
    requires { Recorded e }
    ensures { view result.bank ≡ with_log (view b.bank) (logged (view b.bank).log e) }
{
    let mut log = b.bank.log;
    let mut n = b.bank.log_len;
    if n < 16 {
        log[n] = e;
        n += 1;
    } else {
        log.rotate_left(1);
        log[15] = e;
    }
    let mut c = b.bank;
    c.log = log;
    c.log_len = n;
    SoundBank { bank: c }
}

// The old primary as a challenger, with marks of protection.
pub(crate) fn former(b: SoundBank, p: SoundTracker, serial: u64) -> TimingHypothesis
    requires { p.tracker.pair.ready ≡ true }
    ensures { (view_hyp result ≡ formerly (view b.bank) (Tracked.view p.tracker) serial) × Fit result }
{
    let l = centroid_logs(p.tracker.pair.lo, p.tracker.pair.hi);
    TimingHypothesis {
        tracker: p.tracker,
        score: b.bank.primary_score,
        gap_score: b.bank.primary_gap_score,
        lead_marks: 0,
        age_marks: 0,
        origin: Origin::FormerPrimary { retain_marks: 24 },
        reported: false,
        ln_lo: l.lo,
        ln_hi: l.hi,
        serial,
    }
}

// The choice at place i is acted on: it becomes the primary, and the old one takes its place.
pub(crate) fn exchange(b: SoundBank, p: SoundTracker, serial: u64, i: usize) -> Taken
    requires ready { p.tracker.pair.ready ≡ true }
    requires i_bound { (i < b.bank.challengers_len) × (b.bank.pending ≡ Some i) }
    ensures { Took b.bank p.tracker result
        (taking exchanged (view b.bank) (Tracked.view p.tracker) serial i (get_elem? (view b.bank).challengers i)) }
{
    let h = b.bank.challengers[i];
    let e = SwitchRecord {
        mark_index: b.bank.marks_seen,
        from_dit_ms: p.tracker.pair.lo,
        to_dit_ms: h.tracker.pair.lo,
        applied: true,
    };
    let f = former(b, p, serial);
    let mut c = push_log(b, e).bank;
    c.challengers[i] = f;
    c.primary_score = h.score;
    c.primary_gap_score = h.gap_score;
    c.streak_len = 0;
    c.streak_gaps_len = 0;
    c.streak_side = None;
    c.pending = None;
    Taken {
        bank: SoundBank { bank: c },
        primary: settle(SoundTracker { tracker: h.tracker }),
        serial: h.serial,
        switched: true,
    }
}

// The choice at place i is only noted, once a lead.
pub(crate) fn observe(b: SoundBank, p: SoundTracker, i: usize) -> SoundBank
    requires ready { p.tracker.pair.ready ≡ true }
    requires i_bound { i < b.bank.challengers_len }
    ensures { view result.bank
        ≡ noting observed (view b.bank) (Tracked.view p.tracker) i (get_elem? (view b.bank).challengers i) }
{
    let h = b.bank.challengers[i];
    if h.reported {
        let mut d = b.bank;
        d.pending = None;
        return SoundBank { bank: d };
    }
    let e = SwitchRecord {
        mark_index: b.bank.marks_seen,
        from_dit_ms: p.tracker.pair.lo,
        to_dit_ms: h.tracker.pair.lo,
        applied: false,
    };
    let mut c = push_log(b, e).bank;
    c.challengers[i] = TimingHypothesis {
        reported: true,
        ..h
    };
    c.pending = None;
    SoundBank { bank: c }
}

// A switch call, beside the primary p with its serial.
pub fn take_switch(b: SoundBank, p: SoundTracker, serial: u64) -> Taken
    requires { Chosen b.bank p.tracker }
    ensures { Took b.bank p.tracker result (take_switch (view b.bank) (Tracked.view p.tracker) serial) }
{
    let mut bank = b;
    if 2 <= b.bank.width {
        if let Some(i) = b.bank.pending {
            if b.bank.switching {
                return exchange(b, p, serial, i);
            }
            bank = observe(b, p, i);
        }
    }
    Taken {
        bank,
        primary: p,
        serial,
        switched: false,
    }
}
