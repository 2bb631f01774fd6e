// The speed tracker of document 01, "ClusterPair and SpeedTracker".
#![tactic(auto)]

pub mod calls;
pub mod inner;
mod sound_tracker;

use pair::ClusterPair;
use ring::RingEntry;
pub use sound_tracker::SoundTracker;

// A tracker. Its lists keep their counts beside them: whoever hands a state in may have any count there, and refusal 1
// answers one above its capacity.
#[derive(Clone, Copy)]
pub struct SpeedTracker {
    pub pair: ClusterPair,
    pub ring: [RingEntry; 12],
    pub ring_len: usize,
    pub wpm_ema: Option<f32>,
    pub recent: [f32; 5],
    pub recent_len: usize,
    pub mu_egap_ms: Option<f32>,
    pub ratio_hint: Option<f32>,
    pub regime: u32,
    pub badlock_recovered: bool,
    pub lo_uncorroborated: bool,
}
