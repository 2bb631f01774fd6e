// The layers below the station as the oracle links them: each export calls the function of its name in the crate
// `exports`, and promises the same. A module for each module of that crate with such functions.
#![tactic(auto)]

pub mod inner;
pub mod of_bank;
pub mod of_lent;
pub mod of_numbers;
pub mod of_sender;
pub mod of_tracker;
