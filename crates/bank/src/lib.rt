// The bank of rivals of document 01, "TimingBank".
#![tactic(auto)]

use bank_model::{Departures, SwitchRecord};
pub use open_bank::OpenBank;
use refusals::Refusal;
use rival::TimingHypothesis;
pub use run::Run;
pub use sound_bank::SoundBank;
use tracker::SpeedTracker;

pub mod calls;
pub mod inner;
mod open_bank;
mod run;
mod sound_bank;

// A bank: a list is an array and a count. The challengers stay plain, as a bank that is not sound has to be told as
// well; a type of fit ones would be wrapped at each read and unwrapped at each write, and `SoundBank` says it of all at
// once.
#[derive(Clone, Copy)]
pub struct TimingBank {
    pub width: usize,
    pub switching: bool,
    pub primary_score: f32,
    pub primary_gap_score: f32,
    pub challengers: [TimingHypothesis; 8],
    pub challengers_len: usize,
    pub streak: [f32; 4],
    pub streak_len: usize,
    pub streak_gaps: [f32; 4],
    pub streak_gaps_len: usize,
    pub streak_side: Option<bool>,
    pub last_gap: Option<f32>,
    pub marks_seen: u64,
    pub gaps_seen: u64,
    pub pending: Option<usize>,
    pub log: [SwitchRecord; 16],
    pub log_len: usize,
    pub started: u64,
}

// A sound bank after a call, and those that left it in the call.
#[derive(Clone, Copy)]
pub struct Changed {
    pub bank: SoundBank,
    pub gone: Departures,
}

// What `new` answers: whether the width was refused, and the bank that is handed back, in which nothing was heard yet.
#[derive(Clone, Copy)]
pub struct Heard {
    pub told: Result<(), Refusal>,
    pub bank: TimingBank,
}

// The answer of a switch call: whether the two were exchanged, the bank, the primary, and the primary's serial.
#[derive(Clone, Copy)]
pub struct Switched {
    pub flag: Result<bool, Refusal>,
    pub bank: TimingBank,
    pub primary: SpeedTracker,
    pub serial: u64,
}
