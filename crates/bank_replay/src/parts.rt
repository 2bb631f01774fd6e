// The parts of a bank that a line may set, by their numbers: the oracle's list of them.
use plain::{PlainBank, PlainHypothesis, PlainRecord};
use replay::{Line, float};
use shown::parts::flag;

// A number of 64 bits with another lower half, or another upper half.
fn with_low(n: u64, v: u32) -> u64 {
    n / 4294967296 * 4294967296 + u64::from(v)
}

fn with_high(n: u64, v: u32) -> u64 {
    n % 4294967296 + u64::from(v) * 4294967296
}

fn set_record(r: &mut PlainRecord, part: u32, v: u32) {
    match part {
        17 => r.mark_index = u64::from(v),
        18 => r.from_dit_ms = float(v),
        19 => r.to_dit_ms = float(v),
        _ => r.applied = flag(v),
    }
}

fn set_hypothesis(h: &mut PlainHypothesis, part: u32, v: u32) {
    match part {
        24 => h.score = float(v),
        25 => h.gap_score = float(v),
        26 => h.lead_marks = v,
        27 => h.age_marks = v,
        28 => h.origin = (v % 256) as u8,
        29 => h.retain_marks = v,
        30 => h.reported = flag(v),
        31 => h.ln_lo = float(v),
        32 => h.ln_hi = float(v),
        _ => h.serial = u64::from(v),
    }
}

// One part of a bank set: a line's fields are its number, its place and its value.
pub(crate) fn set_part(b: &mut PlainBank, line: &Line) {
    let part = line.first();
    let i = line.second() as usize;
    let v = line.third();
    match part {
        0 => b.width = v as usize,
        1 => b.switching = flag(v),
        2 => b.primary_score = float(v),
        3 => b.primary_gap_score = float(v),
        4 => b.challengers_len = v as usize,
        5 if i < 4 => b.streak[i] = float(v),
        6 => b.streak_len = v as usize,
        7 if i < 4 => b.streak_gaps[i] = float(v),
        8 => b.streak_gaps_len = v as usize,
        9 => b.has_side = flag(v),
        10 => b.streak_side = flag(v),
        11 => b.has_last_gap = flag(v),
        12 => b.last_gap = float(v),
        13 => b.marks_seen = u64::from(v),
        14 => b.gaps_seen = u64::from(v),
        15 => b.has_pending = flag(v),
        16 => b.pending = v as usize,
        17..=20 if i < 16 => set_record(&mut b.log[i], part, v),
        21 => b.log_len = v as usize,
        22 => b.started = with_low(b.started, v),
        23 => b.started = with_high(b.started, v),
        24.. if i < 8 => set_hypothesis(&mut b.challengers[i], part, v),
        _ => {}
    }
}
