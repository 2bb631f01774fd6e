// What the layers above call: each function asks what it needs.
pub mod lock;
pub mod pair;
pub mod readings;
pub mod sound;
