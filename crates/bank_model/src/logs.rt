// Logarithms that travel together: a duration's beside it, and those of two centroids.
ghost use Rattle.std.specs.Prelude.{◌≡◌};
ghost use Rattle.numbers.specs.Log.{ln_of};

use numbers::inner::ln_of;
use ranges::Duration;

// The logarithms of a tracker's centroids.
#[derive(Clone, Copy)]
pub struct LogPair {
    pub lo: f32,
    pub hi: f32,
}

// A duration and its logarithm.
#[derive(Clone, Copy)]
pub struct Measured {
    pub dur: Duration,
    pub ln: f32,
    pub ghost ln_is: { ln ≡ ln_of dur.ms },
}

impl Measured {
    // The duration dur with its logarithm.
    pub fn of(dur: Duration) -> Measured
        ensures { result.dur.ms ≡ dur.ms }
    {
        let ln = ln_of(dur.ms);
        Measured { dur, ln }
    }
}
