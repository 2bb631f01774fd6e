// What the journal does, for journals that are sound: each function asks what it needs.
pub mod answer;
pub mod ends;
pub mod feed;
pub mod gather;
