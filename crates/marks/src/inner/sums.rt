// Sums of marks in f64, one rounding for each operation (the Rust's `mean`, and the sums of `check_drift`).
ghost use Rattle.std.specs.Prelude.{◌≡◌};
ghost use Rattle.ranges.specs.Limits.{nought};
ghost use Rattle.ranges.specs.Mean.{sum_from, mean64, mean_of, square_off, squares_from};
ghost use Rattle.marks.specs.Band.{deviation};

use crate::Marks;
use numbers::root::BinaryFloat;
use numbers::rounding::narrow;

impl Marks<'_> {
    // The sum.
    #[tactic(auto, using(crate::proofs::Summing::summing), unfolding(ranges::specs::Mean::sum_from))]
    pub(crate) fn sum(self) -> f64
        ensures { result ≡ sum_from nought self.entry.at.now }
    {
        let mut acc = 0.0;
        for x in self.at {
            acc += *x as f64;
        }
        acc
    }

    // The mean, still an f64.
    pub fn mean_wide(self) -> f64
        ensures { result ≡ mean64 self.entry.at.now }
    {
        self.sum() / self.at.len() as f64
    }

    // The mean.
    pub fn mean(self) -> f32
        ensures { result ≡ mean_of self.entry.at.now }
    {
        narrow(self.mean_wide())
    }

    // The sum of the squares of the distances from m.
    #[tactic(auto, using(crate::proofs::Summing::summing), unfolding(ranges::specs::Mean::squares_from))]
    pub(crate) fn squares(self, m: f64) -> f64
        ensures { result ≡ squares_from m nought self.entry.at.now }
    {
        let mut acc = 0.0;
        for x in self.at {
            acc += square_off(m, *x as f64);
        }
        acc
    }

    // Standard deviation over the mean m.
    pub fn deviation(self, m: f64) -> f64
        ensures { result ≡ deviation m self.entry.at.now }
    {
        (self.squares(m) / self.at.len() as f64).root() / m
    }
}

// The square of the distance of x from m.
pub(crate) fn square_off(m: f64, x: f64) -> f64
    ensures { result ≡ square_off m x }
{
    (x - m) * (x - m)
}
