// The cut of sorted marks, and the means on both sides of it (the Rust's `largest_ratio_split`).
ghost use Rattle.std.specs.Prelude.{◌≡◌, ◌+◌, ◌<◌, ◌≤◌, length};
ghost use Rattle.ranges.specs.Limits.{nought};
ghost use Rattle.marks.specs.Parts.{Halved};
ghost use Rattle.marks.specs.Sort.{ratios, first_largest};

use crate::Marks;

// The place of the last mark before the first largest neighbour ratio.
#[tactic(auto, using(crate::proofs::Cutting::cutting))]
pub(crate) fn largest_ratio_split(s: &[f32]) -> usize
    requires { 2 ≤ length s.now }
    ensures first { result ≡ first_largest 0 0 nought (ratios s.now) }
    ensures inside { result + 1 < length s.now }
{
    let mut best_i = 0;
    let mut best_r = 0.0;
    for i in 0..s.len() - 1 {
        let r = s[i + 1] / s[i];
        if best_r < r {
            best_i = i;
            best_r = r;
        }
    }
    best_i
}

// How many marks stand before the cut, and the means of those and of the others.
#[derive(Clone, Copy)]
pub struct Halves {
    pub cut: usize,
    pub lo: f32,
    pub hi: f32,
}

// The means of sorted marks up to the cut and from it on: `mean` is handed the part that starts there.
pub fn split(sorted: Marks) -> Halves
    requires { 2 ≤ length sorted.at.now }
    ensures { Halved sorted.entry.at.now result }
{
    let cut = largest_ratio_split(sorted.at) + 1;
    let before = Marks {
        at: &sorted.at[..cut],
    };
    let after = Marks {
        at: &sorted.at[cut..],
    };
    Halves {
        cut,
        lo: before.mean(),
        hi: after.mean(),
    }
}
