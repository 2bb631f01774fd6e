// Lists of up to twelve marks or gaps: sorted, cut, summed, tested (document 01, "ClusterPair and SpeedTracker").
#![tactic(auto)]

pub mod inner;
mod list;

pub use list::{Gaps, List, Marks};
