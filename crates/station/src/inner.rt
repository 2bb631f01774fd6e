// What the calls do, for stations that are sound: each function asks what it needs.
pub mod accept;
pub mod after;
pub mod call;
pub mod events;
pub mod fresh;
pub mod open;
pub mod pace;
pub mod refusing;
pub mod sound;
