// Structs whose numbers are their places, so that a host can compare its own declarations with the library's: each number holds its place in its struct,
// counted from 1, a float the one with those bits; the last element of an array has 100 more in each number that stands in it directly.
ghost use Rattle.std.specs.Prelude.{◌≡◌, ◌+◌, ◌-◌, ◌<◌, ◌≤◌};
ghost use Rattle.hullathan.specs.Layout as Placed;

use crate::{PlainAnswer, PlainBatch, PlainEvent, PlainReading, PlainRival};
use plain::{PlainBank, PlainDeparture, PlainHypothesis, PlainRecord};
use plain_sender::SenderReading;
use plain_station::PlainStation;
use plain_tracker::{PlainEntry, PlainPair, PlainTracker};
use sender::{ClassStats, Dits, SenderTiming};

// The float with these bits.
pub(crate) fn float_at(n: u32) -> f32
    requires { n ≤ 200 }
    ensures { result ≡ Placed.float n }
{
    f32::from_bits(n)
}

// An array of x, but for its last place, which holds z.
pub(crate) fn ending<T: Copy, const N: usize>(x: T, z: T) -> [T; N]
    requires { 0 < N }
    ensures { result ≡ Placed.ending (N - 1) x z }
{
    let mut l = [x; N];
    l[N - 1] = z;
    l
}

// The bytes of a pad at a place.
pub(crate) fn bytes<const N: usize>(at: u8) -> [u8; N]
    requires some { 0 < N }
    requires low { at ≤ 150 }
    ensures { result ≡ Placed.bytes N at }
{
    ending(at, 100 + at)
}

// By how much the numbers of an element are more than their places: 0, but 100 for the last element of an array.
#[derive(Clone, Copy)]
pub(crate) struct Shift {
    more: u8,
    ghost low: { more ≤ 100 },
}

pub(crate) const FIRST: Shift = Shift { more: 0 };

pub(crate) const LAST: Shift = Shift { more: 100 };

impl Shift {
    // The number at a place.
    pub(crate) fn at(self, place: u8) -> u8
        requires { place ≤ 50 }
        ensures { result ≡ place + self.more }
    {
        place + self.more
    }

    // The float at a place.
    pub(crate) fn float(self, place: u8) -> f32
        requires { place ≤ 50 }
        ensures { result ≡ Placed.float (place + self.more) }
    {
        float_at(u32::from(self.at(place)))
    }

    // The bytes of a pad at a place.
    pub(crate) fn pad<const N: usize>(self, place: u8) -> [u8; N]
        requires some { 0 < N }
        requires low { place ≤ 50 }
        ensures { result ≡ Placed.bytes N (place + self.more) }
    {
        bytes(self.at(place))
    }
}

pub(crate) fn pair_placed() -> PlainPair
    ensures { result ≡ Placed.pair }
{
    let init = ending(float_at(3), float_at(103));
    PlainPair {
        lo: float_at(1),
        hi: float_at(2),
        init,
        init_len: 4,
        ready: 5,
        confirmed: 6,
        placeholder_is_lo: 7,
        pad_placeholder_is_lo: bytes(8),
        lo_n: 9,
    }
}

pub(crate) fn entry_placed(m: Shift) -> PlainEntry
    ensures { result ≡ Placed.entry m.more }
{
    PlainEntry {
        dur_ms: m.float(1),
        assigned_dit: m.at(2),
        pad_assigned_dit: m.pad(3),
        pre_lo: m.float(4),
        pre_hi: m.float(5),
    }
}

pub(crate) fn tracker_placed() -> PlainTracker
    ensures { result ≡ Placed.tracker }
{
    let pair = pair_placed();
    let e = entry_placed(FIRST);
    let z = entry_placed(LAST);
    let ring = ending(e, z);
    let recent = ending(float_at(7), float_at(107));
    PlainTracker {
        pair,
        ring,
        ring_len: 3,
        has_wpm: 4,
        pad_has_wpm: bytes(5),
        wpm_ema: float_at(6),
        recent,
        pad_recent: bytes(8),
        recent_len: 9,
        has_egap: 10,
        pad_has_egap: bytes(11),
        mu_egap_ms: float_at(12),
        has_hint: 13,
        pad_has_hint: bytes(14),
        ratio_hint: float_at(15),
        regime: 16,
        badlock_recovered: 17,
        lo_uncorroborated: 18,
        pad_lo_uncorroborated: bytes(19),
    }
}

pub(crate) fn hypothesis_placed(m: Shift) -> PlainHypothesis
    ensures { result ≡ Placed.hypothesis m.more }
{
    let tracker = tracker_placed();
    PlainHypothesis {
        tracker,
        score: m.float(2),
        gap_score: m.float(3),
        lead_marks: u32::from(m.at(4)),
        age_marks: u32::from(m.at(5)),
        origin: m.at(6),
        pad_origin: m.pad(7),
        retain_marks: u32::from(m.at(8)),
        reported: m.at(9),
        pad_reported: m.pad(10),
        ln_lo: m.float(11),
        ln_hi: m.float(12),
        pad_ln_hi: m.pad(13),
        serial: u64::from(m.at(14)),
    }
}

pub(crate) fn record_placed(m: Shift) -> PlainRecord
    ensures { result ≡ Placed.record_at m.more }
{
    PlainRecord {
        mark_index: u64::from(m.at(1)),
        from_dit_ms: m.float(2),
        to_dit_ms: m.float(3),
        applied: m.at(4),
        pad_applied: m.pad(5),
    }
}

pub(crate) fn log_placed() -> [PlainRecord; 16]
    ensures { result ≡ Placed.ending 15 (Placed.record_at 0) (Placed.record_at 100) }
{
    ending(record_placed(FIRST), record_placed(LAST))
}

pub(crate) fn bank_placed() -> PlainBank
    ensures { result ≡ Placed.bank }
{
    let challengers = ending(hypothesis_placed(FIRST), hypothesis_placed(LAST));
    let streak = ending(float_at(9), float_at(109));
    let streak_gaps = ending(float_at(11), float_at(111));
    let log = log_placed();
    PlainBank {
        width: 1,
        switching: 2,
        pad_switching: bytes(3),
        primary_score: float_at(4),
        primary_gap_score: float_at(5),
        pad_primary_gap_score: bytes(6),
        challengers,
        challengers_len: 8,
        streak,
        streak_len: 10,
        streak_gaps,
        streak_gaps_len: 12,
        has_side: 13,
        streak_side: 14,
        has_last_gap: 15,
        pad_has_last_gap: bytes(16),
        last_gap: float_at(17),
        marks_seen: 18,
        gaps_seen: 19,
        has_pending: 20,
        pad_has_pending: bytes(21),
        pending: 22,
        log,
        log_len: 24,
        started: 25,
    }
}

pub(crate) fn departure_placed(m: Shift) -> PlainDeparture
    ensures { result ≡ Placed.departure m.more }
{
    PlainDeparture {
        serial: u64::from(m.at(1)),
        cause: m.at(2),
        pad_cause: m.pad(3),
    }
}

pub(crate) fn answer_placed(m: Shift) -> PlainAnswer
    ensures { result ≡ Placed.answer m.more }
{
    let d = departure_placed(FIRST);
    let z = departure_placed(LAST);
    let left = ending(d, z);
    PlainAnswer {
        code: m.at(1),
        pad_code: m.pad(2),
        dit_ms: m.float(3),
        dah_ms: m.float(4),
        pad_dah_ms: m.pad(5),
        serial: u64::from(m.at(6)),
        challengers: usize::from(m.at(7)),
        left,
        left_len: usize::from(m.at(9)),
    }
}

pub(crate) fn event_placed(m: Shift) -> PlainEvent
    ensures { result ≡ Placed.event m.more }
{
    PlainEvent {
        kind: m.at(1),
        live: m.at(2),
        pad_live: m.pad(3),
        value: m.float(4),
    }
}

pub(crate) fn rival_placed(m: Shift) -> PlainRival
    ensures { result ≡ Placed.rival m.more }
{
    PlainRival {
        serial: u64::from(m.at(1)),
        dit_ms: m.float(2),
        dah_ms: m.float(3),
        score: m.float(4),
        gap_score: m.float(5),
    }
}

// A station, with all that it holds.
pub fn hullathan_layout_station() -> PlainStation
    ensures { result ≡ Placed.station }
{
    let primary = tracker_placed();
    let bank = bank_placed();
    PlainStation {
        primary,
        serial: 2,
        bank,
        twins: 4,
        outscored: 5,
        aged: 6,
        replaced: 7,
        cleared: 8,
        accepted: 9,
    }
}

// An answer.
pub fn hullathan_layout_answer() -> PlainAnswer
    ensures { result ≡ Placed.answer 0 }
{
    answer_placed(FIRST)
}

// A batch.
pub fn hullathan_layout_batch() -> PlainBatch
    ensures { result ≡ Placed.batch }
{
    let e = event_placed(FIRST);
    let f = event_placed(LAST);
    let events = ending(e, f);
    let a = answer_placed(FIRST);
    let z = answer_placed(LAST);
    let answers = ending(a, z);
    PlainBatch {
        len: 1,
        events,
        answers,
    }
}

// A reading.
pub fn hullathan_layout_reading() -> PlainReading
    ensures { result ≡ Placed.reading }
{
    let rivals = ending(rival_placed(FIRST), rival_placed(LAST));
    let log = log_placed();
    PlainReading {
        code: 1,
        ready: 2,
        has_wpm: 3,
        switching: 4,
        pad_switching: bytes(5),
        width: 6,
        dit_ms: float_at(7),
        dah_ms: float_at(8),
        dit_estimate_ms: float_at(9),
        wpm: float_at(10),
        score: float_at(11),
        gap_score: float_at(12),
        serial: 13,
        accepted: 14,
        marks: 15,
        gaps: 16,
        started: 17,
        twins: 18,
        outscored: 19,
        aged: 20,
        replaced: 21,
        cleared: 22,
        challengers: 23,
        rivals,
        log_len: 25,
        log,
    }
}

pub(crate) fn stats_placed() -> ClassStats
    ensures { result ≡ Placed.stats }
{
    let mean = Dits(float_at(1));
    ClassStats {
        mean,
        var: float_at(2),
        n: 3,
    }
}

// A sender's statistics.
pub fn hullathan_layout_sender() -> SenderTiming
    ensures { result ≡ Placed.sender }
{
    let c = stats_placed();
    SenderTiming {
        dot: c,
        dash: c,
        element_gap: c,
        char_gap: c,
        word_gap: c,
    }
}

// What is read of a sender.
pub fn hullathan_layout_sender_reading() -> SenderReading
    ensures { result ≡ Placed.sender_reading }
{
    let c = stats_placed();
    SenderReading {
        code: 1,
        has_ratio: 2,
        has_word: 3,
        pad_has_word: bytes(4),
        dit_ms: float_at(5),
        ratio: float_at(6),
        word_dits: float_at(7),
        dot: c,
        dash: c,
        element_gap: c,
        char_gap: c,
        word_gap: c,
    }
}
