// The pair of centroids of document 01, "ClusterPair and SpeedTracker".
#![tactic(auto)]

pub mod inner;

// Two centroids, and the start marks while there are none: an array beside its count, and flags, as in the plain form
// of it that hosts hold by value (document 01).
#[repr(C)]
#[derive(Clone, Copy)]
pub struct ClusterPair {
    pub lo: f32,
    pub hi: f32,
    pub init: [f32; 12],
    pub init_len: usize,
    pub ready: bool,
    pub confirmed: bool,
    pub placeholder_is_lo: bool,
    pub lo_n: usize,
}
