// From a plain form to its bank. Of the challengers and of the log only what is within the count is carried over; what
// else lies beyond a count is no part of the bank, and is read as it stands.
ghost use Rattle.std.specs.Prelude.{◌≡◌};
ghost use Rattle.plain.specs.Plain.{origin_of, hyp_of, no_hyp, record_of, bank_of, is_bank, Reads};

use crate::is::is_bank;
use crate::{PlainBank, PlainHypothesis, PlainRecord};
use bank::TimingBank;
use bank_model::{Origin, SwitchRecord};
use plain_tracker::from::{flag_of, tracker_of};
use plain_tracker::inner::carried;
use refusals::Refusal;
use rival::TimingHypothesis;
use tracker::SpeedTracker;

// Where a hypothesis came from, by its number and the marks of protection left; a number that means nothing is read as 0.
pub(crate) fn origin_of(n: u8, retain_marks: u32) -> Origin
    ensures { result ≡ origin_of n retain_marks }
{
    match n {
        1 => Origin::Streak,
        2 => Origin::FormerPrimary { retain_marks },
        _ => Origin::Bootstrap,
    }
}

// One challenger.
impl From<PlainHypothesis> for TimingHypothesis {
    ghost from_gives = { λ p h. h ≡ hyp_of p };

    fn from(p: PlainHypothesis) -> TimingHypothesis {
        TimingHypothesis {
            tracker: tracker_of(p.tracker),
            score: p.score,
            gap_score: p.gap_score,
            lead_marks: p.lead_marks,
            age_marks: p.age_marks,
            origin: origin_of(p.origin, p.retain_marks),
            reported: flag_of(p.reported),
            ln_lo: p.ln_lo,
            ln_hi: p.ln_hi,
            serial: p.serial,
        }
    }
}

// A place that holds no challenger.
pub fn no_hypothesis() -> TimingHypothesis
    ensures { result ≡ no_hyp }
{
    TimingHypothesis {
        tracker: SpeedTracker::new(),
        score: 0.0,
        gap_score: 0.0,
        lead_marks: 0,
        age_marks: 0,
        origin: Origin::Bootstrap,
        reported: false,
        ln_lo: 0.0,
        ln_hi: 0.0,
        serial: 0,
    }
}

// A switch record.
impl From<PlainRecord> for SwitchRecord {
    ghost from_gives = { λ p s. s ≡ record_of p };

    fn from(p: PlainRecord) -> SwitchRecord {
        SwitchRecord {
            mark_index: p.mark_index,
            from_dit_ms: p.from_dit_ms,
            to_dit_ms: p.to_dit_ms,
            applied: flag_of(p.applied),
        }
    }
}

// A place that holds no switch record.
pub const NO_RECORD: SwitchRecord = SwitchRecord {
    mark_index: 0,
    from_dit_ms: 0.0,
    to_dit_ms: 0.0,
    applied: false,
};

// The bank of a plain form, each number read as it stands.
pub fn bank_from(p: PlainBank) -> TimingBank
    ensures { result ≡ bank_of p }
{
    let challengers = carried(
        &p.challengers,
        p.challengers_len,
        no_hypothesis(),
        TimingHypothesis::from,
    );
    let streak = p.streak;
    let streak_gaps = p.streak_gaps;
    let log = carried(&p.log, p.log_len, NO_RECORD, SwitchRecord::from);
    TimingBank {
        width: p.width,
        switching: flag_of(p.switching),
        primary_score: p.primary_score,
        primary_gap_score: p.primary_gap_score,
        challengers,
        challengers_len: p.challengers_len,
        streak,
        streak_len: p.streak_len,
        streak_gaps,
        streak_gaps_len: p.streak_gaps_len,
        streak_side: flag_of(p.has_side).then_some(flag_of(p.streak_side)),
        last_gap: flag_of(p.has_last_gap).then_some(p.last_gap),
        marks_seen: p.marks_seen,
        gaps_seen: p.gaps_seen,
        pending: flag_of(p.has_pending).then_some(p.pending),
        log,
        log_len: p.log_len,
        started: p.started,
    }
}

// The bank of a plain form, where it is one.
impl TryFrom<PlainBank> for TimingBank {
    type Error = Refusal;

    ghost try_from_gives = { λ p r. Reads (is_bank p) (bank_of p) r };

    fn try_from(p: PlainBank) -> Result<TimingBank, Refusal> {
        if is_bank(p) {
            Ok(bank_from(p))
        } else {
            Err(Refusal::UnsoundState)
        }
    }
}
