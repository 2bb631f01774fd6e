// The library for receivers: a station, a bank with a lent tracker and a sender's statistics in the host's own memory,
// in C or Rust. No function that `hullathan_c` exports has a `requires`: whatever bytes stand there, a call does its work
// or refuses by document 01's number. Those within it ask what the tests before them have found. What the machine must
// grant (stack, floating-point environment) stands in the header.
#![tactic(auto)]

use bank_model::MOST_LEFT;
use plain::{PlainDeparture, PlainRecord};
use plain_station::PlainStation;
use refusals::Refusal;

pub mod banks;
pub mod batch;
pub mod call;
pub mod event;
pub mod hosts;
pub mod inner;
pub mod layout;
pub mod read;
pub mod senders;
pub mod start;
pub mod version;

// An event by its kind: 0 mark, 1 gap, 2 finish, 3 seed, 4 hint, 5 clear, 6 switch; whether it is live (0: no), of a mark only; and its number.
#[repr(C)]
#[derive(Clone, Copy)]
pub struct PlainEvent {
    pub kind: u8,
    pub live: u8,
    pub pad_live: [u8; 2],
    pub value: f32,
}

// The answer of a call: its code (0 to 3, or 128 and the refusal's number), the dit and the dah, the primary's serial and how many challengers
// there are after it, and those that left in it.
#[repr(C)]
#[derive(Clone, Copy, Default)]
pub struct PlainAnswer {
    pub code: u8,
    pub pad_code: [u8; 3],
    pub dit_ms: f32,
    pub dah_ms: f32,
    pub pad_dah_ms: [u8; 4],
    pub serial: u64,
    pub challengers: usize,
    pub left: [PlainDeparture; MOST_LEFT],
    pub left_len: usize,
}

// A batch: the first `len` events, and room for their answers.
#[repr(C)]
#[derive(Clone, Copy)]
pub struct PlainBatch {
    pub len: usize,
    pub events: [PlainEvent; 64],
    pub answers: [PlainAnswer; 64],
}

// What a host shows of a challenger.
#[repr(C)]
#[derive(Clone, Copy, Default)]
pub struct PlainRival {
    pub serial: u64,
    pub dit_ms: f32,
    pub dah_ms: f32,
    pub score: f32,
    pub gap_score: f32,
}

// What a display and a log need of a station. `marks` and `gaps` are those that the bank has counted, `accepted` the calls; `log` has the
// switches, the oldest first.
#[repr(C)]
#[derive(Clone, Copy, Default)]
pub struct PlainReading {
    pub code: u8,
    pub ready: u8,
    pub has_wpm: u8,
    pub switching: u8,
    pub pad_switching: [u8; 4],
    pub width: usize,
    pub dit_ms: f32,
    pub dah_ms: f32,
    pub dit_estimate_ms: f32,
    pub wpm: f32,
    pub score: f32,
    pub gap_score: f32,
    pub serial: u64,
    pub accepted: u64,
    pub marks: u64,
    pub gaps: u64,
    pub started: u64,
    pub twins: u64,
    pub outscored: u64,
    pub aged: u64,
    pub replaced: u64,
    pub cleared: u64,
    pub challengers: usize,
    pub rivals: [PlainRival; 8],
    pub log_len: usize,
    pub log: [PlainRecord; 16],
}

// A start: its code, and the station.
#[derive(Clone, Copy)]
pub struct Started {
    pub code: u8,
    pub station: PlainStation,
}

// A call: the station after it, and the answer.
#[derive(Clone, Copy)]
pub struct Called {
    pub station: PlainStation,
    pub answer: PlainAnswer,
}

// A batch: whether it is refused, the station after it, and the batch with the answers.
#[derive(Clone, Copy)]
pub struct Ran {
    pub told: Result<(), Refusal>,
    pub station: PlainStation,
    pub batch: PlainBatch,
}
