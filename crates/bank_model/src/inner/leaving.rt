// A list of those that leave.
ghost use Rattle.std.specs.Prelude.{◌≡◌, ◌<◌, [], ◌∷◌, ◌++◌};
ghost use Rattle.bank_model.specs.Departures.{most_left};
ghost use Rattle.bank_model.specs.Left.{those};

use crate::{Cause, Departure, Departures, MOST_LEFT};

impl Departures {
    // No one left.
    pub fn none() -> Departures
        ensures { those result ≡ [] }
    {
        let d = Departure {
            serial: 0,
            cause: Cause::Cleared,
        };
        Departures {
            left: [d; MOST_LEFT],
            left_len: 0,
        }
    }
}

// One more left.
pub fn push(gone: &mut Departures, d: Departure)
    requires { gone.old.left_len < most_left }
    ensures { those gone.new ≡ those gone.old ++ (d ∷ []) }
{
    gone.left[gone.left_len] = d;
    gone.left_len += 1;
}
