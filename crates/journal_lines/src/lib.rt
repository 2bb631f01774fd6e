// The journal of document 01, "Journal program": its input is cut into lines, each line is answered, the answers are
// written.
#![tactic(auto)]

use line_out::Bytes;
use station::Station;

pub mod inner;

// What is carried over from one piece of the input to the next: the station, if there was a good `W`, the bytes of a
// line that is not ended yet, and how many lines may still be read.
#[derive(Clone, Copy)]
pub struct Journal {
    pub station: Option<Station>,
    pub held: Bytes<80>,
    pub left: u64,
}

// What was done with a piece of the input: how many of its bytes were taken, how many were written.
#[derive(Clone, Copy)]
pub struct Fed {
    pub used: usize,
    pub put: usize,
}
