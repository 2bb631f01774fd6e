// Each layer below the station as C and Rust call it, to be compared with the Rust that it replaces: plain numbers in,
// the refusal's number out (0: done), the answer behind a reference. A module for each layer, named `of_` and the
// layer's crate. The crate `exports_c` exports these functions.
#![tactic(auto)]

pub mod inner;
pub mod of_bank;
pub mod of_lent;
pub mod of_numbers;
pub mod of_sender;
pub mod of_tracker;
