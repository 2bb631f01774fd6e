// What the layers above call. What a function needs is borne by its arguments' types (`Marks`, `Gaps`, `List`), or
// asked by its `requires`.
pub mod band;
pub mod cut;
pub mod places;
pub mod sort;
pub mod sums;
