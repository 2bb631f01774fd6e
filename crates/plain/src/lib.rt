// A bank with numbers in place of enums and flags, as a host in C or Rust holds it, and the way there and back. A flag is 0 or 1.
// What lies beyond a count, or is marked absent, is no part of the state: the way there leaves it empty.
#![tactic(auto)]

use plain_tracker::PlainTracker;

pub mod from;
pub mod is;
pub mod to;

// One challenger: where it came from is a number, 0 the bootstrap, 1 a streak, 2 a former primary, and the marks of protection left.
#[repr(C)]
#[derive(Clone, Copy)]
pub struct PlainHypothesis {
    pub tracker: PlainTracker,
    pub score: f32,
    pub gap_score: f32,
    pub lead_marks: u32,
    pub age_marks: u32,
    pub origin: u8,
    pub pad_origin: [u8; 3],
    pub retain_marks: u32,
    pub reported: u8,
    pub pad_reported: [u8; 3],
    pub ln_lo: f32,
    pub ln_hi: f32,
    pub pad_ln_hi: [u8; 4],
    pub serial: u64,
}

// One switch that the bank made, or would have made: the fields of `SwitchRecord`.
#[repr(C)]
#[derive(Clone, Copy, Default)]
pub struct PlainRecord {
    pub mark_index: u64,
    pub from_dit_ms: f32,
    pub to_dit_ms: f32,
    pub applied: u8,
    pub pad_applied: [u8; 7],
}

// A bank: the fields of `TimingBank`.
#[repr(C)]
#[derive(Clone, Copy)]
pub struct PlainBank {
    pub width: usize,
    pub switching: u8,
    pub pad_switching: [u8; 3],
    pub primary_score: f32,
    pub primary_gap_score: f32,
    pub pad_primary_gap_score: [u8; 4],
    pub challengers: [PlainHypothesis; 8],
    pub challengers_len: usize,
    pub streak: [f32; 4],
    pub streak_len: usize,
    pub streak_gaps: [f32; 4],
    pub streak_gaps_len: usize,
    pub has_side: u8,
    pub streak_side: u8,
    pub has_last_gap: u8,
    pub pad_has_last_gap: [u8; 1],
    pub last_gap: f32,
    pub marks_seen: u64,
    pub gaps_seen: u64,
    pub has_pending: u8,
    pub pad_has_pending: [u8; 7],
    pub pending: usize,
    pub log: [PlainRecord; 16],
    pub log_len: usize,
    pub started: u64,
}

// A hypothesis that left: why is a number, 0 twin, 1 outscored, 2 aged, 3 replaced, 4 cleared.
#[repr(C)]
#[derive(Clone, Copy, Default)]
pub struct PlainDeparture {
    pub serial: u64,
    pub cause: u8,
    pub pad_cause: [u8; 7],
}
