// From a bank to its plain form. What lies beyond a count, or is absent, is left empty.
ghost use Rattle.std.specs.Prelude.{◌≡◌};
ghost use Rattle.plain_tracker.specs.Plain.{carried};
ghost use Rattle.plain.specs.Plain.{origin_code, retained, plain_hyp, blank_hyp, plain_record, blank_record, plain_bank, plain_departure, no_departure};

use crate::from::no_hypothesis;
use crate::{PlainBank, PlainDeparture, PlainHypothesis, PlainRecord};
use bank::TimingBank;
use bank_model::{Cause, Departure, MOST_LEFT, Origin, SwitchRecord};
use plain_tracker::PlainTracker;
use plain_tracker::inner::carried;
use rival::TimingHypothesis;

// Where a hypothesis came from, as a number.
pub(crate) fn origin_code(o: Origin) -> u8
    ensures { result ≡ origin_code o }
{
    match o {
        Origin::Bootstrap => 0,
        Origin::Streak => 1,
        Origin::FormerPrimary { .. } => 2,
    }
}

// The marks of protection left, 0 where there is none.
pub(crate) fn retain_marks(o: Origin) -> u32
    ensures { result ≡ retained o }
{
    match o {
        Origin::Bootstrap | Origin::Streak => 0,
        Origin::FormerPrimary { retain_marks } => retain_marks,
    }
}

// One challenger.
impl From<TimingHypothesis> for PlainHypothesis {
    ghost from_gives = { λ h p. p ≡ plain_hyp h };

    fn from(h: TimingHypothesis) -> PlainHypothesis {
        PlainHypothesis {
            tracker: PlainTracker::from(h.tracker),
            score: h.score,
            gap_score: h.gap_score,
            lead_marks: h.lead_marks,
            age_marks: h.age_marks,
            origin: origin_code(h.origin),
            pad_origin: [0; 3],
            retain_marks: retain_marks(h.origin),
            reported: u8::from(h.reported),
            pad_reported: [0; 3],
            ln_lo: h.ln_lo,
            ln_hi: h.ln_hi,
            pad_ln_hi: [0; 4],
            serial: h.serial,
        }
    }
}

// A place that holds no challenger.
pub fn blank_hypothesis() -> PlainHypothesis
    ensures { result ≡ blank_hyp }
{
    PlainHypothesis::from(no_hypothesis())
}

// A switch record.
impl From<SwitchRecord> for PlainRecord {
    ghost from_gives = { λ s p. p ≡ plain_record s };

    fn from(s: SwitchRecord) -> PlainRecord {
        PlainRecord {
            mark_index: s.mark_index,
            from_dit_ms: s.from_dit_ms,
            to_dit_ms: s.to_dit_ms,
            applied: u8::from(s.applied),
            pad_applied: [0; 7],
        }
    }
}

// The log.
pub fn plain_log(log: &[SwitchRecord; 16], count: usize) -> [PlainRecord; 16]
    ensures { result ≡ carried plain_record blank_record count log.now }
{
    carried(log, count, PlainRecord::default(), PlainRecord::from)
}

// A bank.
impl From<TimingBank> for PlainBank {
    ghost from_gives = { λ b p. p ≡ plain_bank b };

    fn from(b: TimingBank) -> PlainBank {
        let challengers = carried(
            &b.challengers,
            b.challengers_len,
            blank_hypothesis(),
            PlainHypothesis::from,
        );
        let streak = carried(&b.streak, b.streak_len, 0.0, |d| d);
        let streak_gaps = carried(&b.streak_gaps, b.streak_gaps_len, 0.0, |d| d);
        PlainBank {
            width: b.width,
            switching: u8::from(b.switching),
            pad_switching: [0; 3],
            primary_score: b.primary_score,
            primary_gap_score: b.primary_gap_score,
            pad_primary_gap_score: [0; 4],
            challengers,
            challengers_len: b.challengers_len,
            streak,
            streak_len: b.streak_len,
            streak_gaps,
            streak_gaps_len: b.streak_gaps_len,
            has_side: u8::from(b.streak_side.is_some()),
            streak_side: u8::from(b.streak_side.unwrap_or(false)),
            has_last_gap: u8::from(b.last_gap.is_some()),
            pad_has_last_gap: [0; 1],
            last_gap: b.last_gap.unwrap_or(0.0),
            marks_seen: b.marks_seen,
            gaps_seen: b.gaps_seen,
            has_pending: u8::from(b.pending.is_some()),
            pad_has_pending: [0; 7],
            pending: b.pending.unwrap_or(0),
            log: plain_log(&b.log, b.log_len),
            log_len: b.log_len,
            started: b.started,
        }
    }
}

// A hypothesis that left.
impl From<Departure> for PlainDeparture {
    ghost from_gives = { λ d p. p ≡ plain_departure d };

    fn from(d: Departure) -> PlainDeparture {
        let cause = match d.cause {
            Cause::Twin => 0,
            Cause::Outscored => 1,
            Cause::Aged => 2,
            Cause::Replaced => 3,
            Cause::Cleared => 4,
        };
        PlainDeparture {
            serial: d.serial,
            cause,
            pad_cause: [0; 7],
        }
    }
}

// A place that holds no departure.
pub fn no_departure() -> PlainDeparture
    ensures { result ≡ no_departure }
{
    PlainDeparture::default()
}

// The first count of those that left in a call.
pub fn plain_departures(left: &[Departure; MOST_LEFT], count: usize) -> [PlainDeparture; MOST_LEFT]
    ensures { result ≡ carried plain_departure no_departure count left.now }
{
    carried(left, count, no_departure(), PlainDeparture::from)
}
