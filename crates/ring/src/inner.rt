// What the layers above call: each function asks what it needs.
pub mod drift;
pub mod push;
pub mod sound;
