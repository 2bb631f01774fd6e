// A bank with nothing in it (the Rust's `new`).
ghost use Rattle.std.specs.Prelude.{◌≡◌, ◌≤◌};
ghost use Rattle.bank_model.specs.Departures.{widest};
ghost use Rattle.bank_model.specs.Steps.{fresh_bank};
ghost use Rattle.bank.specs.View.{view};
ghost use Rattle.bank.specs.Answers.{vacant};

use crate::{SoundBank, TimingBank};
use bank_model::{Origin, SwitchRecord};
use rival::TimingHypothesis;
use tracker::SpeedTracker;

// What stands in a place that no challenger has.
pub(crate) fn vacant() -> TimingHypothesis
    ensures { result ≡ vacant }
{
    TimingHypothesis {
        tracker: SpeedTracker::new(),
        score: 0.0,
        gap_score: 0.0,
        lead_marks: 0,
        age_marks: 0,
        origin: Origin::Bootstrap,
        reported: false,
        ln_lo: 0.0,
        ln_hi: 0.0,
        serial: 0,
    }
}

// What stands in a place of the log that no record has.
pub(crate) fn unlogged() -> SwitchRecord {
    SwitchRecord {
        mark_index: 0,
        from_dit_ms: 0.0,
        to_dit_ms: 0.0,
        applied: false,
    }
}

// A fresh bank; width 0 counts as 1.
pub fn fresh(width: usize, switching: bool) -> SoundBank
    requires { width ≤ widest }
    ensures { view result.bank ≡ fresh_bank width switching }
{
    let bank = TimingBank {
        width: width.max(1),
        switching,
        primary_score: 0.0,
        primary_gap_score: 0.0,
        challengers: [vacant(); 8],
        challengers_len: 0,
        streak: [0.0; 4],
        streak_len: 0,
        streak_gaps: [0.0; 4],
        streak_gaps_len: 0,
        streak_side: None,
        last_gap: None,
        marks_seen: 0,
        gaps_seen: 0,
        pending: None,
        log: [unlogged(); 16],
        log_len: 0,
        started: 0,
    };
    SoundBank { bank }
}
