// One rival reading in the bank of document 01, "TimingBank".
#![tactic(auto)]

use bank_model::Origin;
use tracker::SpeedTracker;

pub mod inner;

// One challenger: its tracker, its scores, its bookkeeping, the logarithms of its centroids, and its serial.
#[derive(Clone, Copy)]
pub struct TimingHypothesis {
    pub tracker: SpeedTracker,
    pub score: f32,
    pub gap_score: f32,
    pub lead_marks: u32,
    pub age_marks: u32,
    pub origin: Origin,
    pub reported: bool,
    pub ln_lo: f32,
    pub ln_hi: f32,
    pub serial: u64,
}
