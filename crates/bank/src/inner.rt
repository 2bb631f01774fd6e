// What the calls do, for banks that are sound. What a function needs is borne by its arguments' types (`SoundBank`,
// `OpenBank`, `Duration`, `Measured`, `Marks`), or asked by its `requires`.
pub mod among;
pub mod beat;
pub mod clear;
pub mod door;
pub mod every;
pub mod fresh;
pub mod gap;
pub mod leave;
pub mod mark;
pub mod ready;
pub mod sound;
pub mod space;
pub mod spawn;
pub mod streak;
pub mod switch;
