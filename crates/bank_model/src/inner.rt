// Scores and bookkeeping of single hypotheses.
pub mod best;
pub mod leaving;
pub mod origins;
pub mod scores;
