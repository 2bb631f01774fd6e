// Roots, rounding and the logarithm of document 01, over whole numbers: the only float products that a result rests
// on, those of `root::pattern_below`, are exact.
#![tactic(auto)]

pub mod inner;
pub mod log;
pub mod root;
pub mod rounding;
