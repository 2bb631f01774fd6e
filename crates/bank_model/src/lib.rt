// What the bank of rivals is made of, below its state: where a hypothesis came from, how one leaves, what a switch
// leaves in the log.
#![tactic(auto)]

pub use departures::Departures;
pub use logs::{LogPair, Measured};

mod departures;
pub mod inner;
mod logs;

// Where a hypothesis came from; a former primary has marks of protection left.
#[derive(Clone, Copy, Debug, PartialEq, Eq)]
pub enum Origin {
    Bootstrap,
    Streak,
    FormerPrimary { retain_marks: u32 },
}

// Why a hypothesis left.
#[derive(Clone, Copy, Debug, PartialEq, Eq)]
pub enum Cause {
    Twin,
    Outscored,
    Aged,
    Replaced,
    Cleared,
}

// The most that leave in one call: the widest bank has one challenger fewer than its width.
pub const MOST_LEFT: usize = 7;

// A hypothesis that left.
#[derive(Clone, Copy)]
pub struct Departure {
    pub serial: u64,
    pub cause: Cause,
}

// One switch that the bank made, or would have made.
#[repr(C)]
#[derive(Clone, Copy)]
pub struct SwitchRecord {
    pub mark_index: u64,
    pub from_dit_ms: f32,
    pub to_dit_ms: f32,
    pub applied: bool,
}
