// What the calls do, for sound trackers: each function asks what else it needs.
pub mod begin;
pub mod door;
pub mod drift;
pub mod gaps;
pub mod mark;
pub mod relock;
pub mod resolve;
pub mod rivals;
pub mod sound;
pub mod speed;
