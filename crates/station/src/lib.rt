// The station of document 01, "Station": a primary tracker, the bank of its rivals, and the books of who came and left.
#![tactic(auto)]

use bank::TimingBank;
use bank_model::Departures;
use refusals::Refusal;
use station_model::{Code, Counts};
use tracker::SpeedTracker;

pub mod calls;
pub mod inner;

// A station: the primary and its serial, its rivals, how many left by cause, how many calls were accepted.
#[derive(Clone, Copy)]
pub struct Station {
    pub primary: SpeedTracker,
    pub serial: u64,
    pub bank: TimingBank,
    pub counts: Counts,
    pub accepted: u64,
}

// The answer of a call: its code, and those that left in it.
#[derive(Clone, Copy)]
pub struct Answer {
    pub code: Code,
    pub gone: Departures,
}

// The station after a call, and the call's answer.
#[derive(Clone, Copy)]
pub struct Outcome {
    pub station: Station,
    pub answer: Answer,
}

// A start: whether it was made as wanted, and the station.
#[derive(Clone, Copy)]
pub struct Started {
    pub told: Result<(), Refusal>,
    pub station: Station,
}

// What a host shows of a challenger.
#[derive(Clone, Copy, Debug, PartialEq)]
pub struct Rival {
    pub serial: u64,
    pub dit_ms: f32,
    pub dah_ms: f32,
    pub score: f32,
}
