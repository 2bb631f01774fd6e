// Those that leave a bank in one call.
ghost use Rattle.bank_model.specs.Departures.{Listed};

use crate::{Departure, MOST_LEFT};

// Those that left in one call, in their order, and how many they are; no one stands beyond the count.
#[derive(Clone, Copy)]
pub struct Departures {
    pub left: [Departure; MOST_LEFT],
    pub left_len: usize,
    pub ghost listed: { Listed left left_len },
}
