// The ring of the last twelve marks (document 01, "ClusterPair and SpeedTracker": drift and fragment recovery).
#![tactic(auto)]

pub mod inner;

// One mark of the ring: its length, whether it was classed a dit, and both centroids as they stood before it.
#[repr(C)]
#[derive(Clone, Copy)]
pub struct RingEntry {
    pub dur_ms: f32,
    pub assigned_dit: bool,
    pub pre_lo: f32,
    pub pre_hi: f32,
}
