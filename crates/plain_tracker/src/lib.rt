// A tracker with numbers in place of flags, as a host in C or Rust holds it, and the way there and back. A flag is 0 or
// 1. What lies beyond a count, or is marked absent, is no part of the state: the way there leaves it empty.
#![tactic(auto)]

pub mod from;
pub mod inner;
pub mod is;
pub mod to;

// Two centroids, and the start marks while there are none: the fields of `ClusterPair`.
#[repr(C)]
#[derive(Clone, Copy)]
pub struct PlainPair {
    pub lo: f32,
    pub hi: f32,
    pub init: [f32; 12],
    pub init_len: usize,
    pub ready: u8,
    pub confirmed: u8,
    pub placeholder_is_lo: u8,
    pub pad_placeholder_is_lo: [u8; 5],
    pub lo_n: usize,
}

// One mark of the ring: the fields of `RingEntry`.
#[repr(C)]
#[derive(Clone, Copy, Default)]
pub struct PlainEntry {
    pub dur_ms: f32,
    pub assigned_dit: u8,
    pub pad_assigned_dit: [u8; 3],
    pub pre_lo: f32,
    pub pre_hi: f32,
}

// A tracker: the fields of `SpeedTracker`, an optional number as a flag and a number.
#[repr(C)]
#[derive(Clone, Copy)]
pub struct PlainTracker {
    pub pair: PlainPair,
    pub ring: [PlainEntry; 12],
    pub ring_len: usize,
    pub has_wpm: u8,
    pub pad_has_wpm: [u8; 3],
    pub wpm_ema: f32,
    pub recent: [f32; 5],
    pub pad_recent: [u8; 4],
    pub recent_len: usize,
    pub has_egap: u8,
    pub pad_has_egap: [u8; 3],
    pub mu_egap_ms: f32,
    pub has_hint: u8,
    pub pad_has_hint: [u8; 3],
    pub ratio_hint: f32,
    pub regime: u32,
    pub badlock_recovered: u8,
    pub lo_uncorroborated: u8,
    pub pad_lo_uncorroborated: [u8; 2],
}
