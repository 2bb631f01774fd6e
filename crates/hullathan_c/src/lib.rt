// The library for receivers as C and Rust link it: each export calls the function of its name in the crate `hullathan`,
// and promises the same. A module for each module of that crate with such functions.
#![tactic(auto)]

pub mod banks;
pub mod hosts;
pub mod layout;
pub mod senders;
pub mod version;
