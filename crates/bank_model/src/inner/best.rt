// The first least and the first highest score.
ghost use Rattle.std.specs.Prelude.{◌≡◌};
ghost use Rattle.bank_model.specs.Steps.{lesser, higher};

use order::total_less32;

// The score s at place i, where it is less than the least so far.
pub fn least_of(i: usize, s: f32, acc: Option<(usize, f32)>) -> Option<(usize, f32)>
    ensures { result ≡ lesser i s acc }
{
    match acc {
        Some((_, t)) if !total_less32(s, t) => acc,
        _ => Some((i, s)),
    }
}

// The score s at place i, where it is above the highest so far.
pub fn highest_of(i: usize, s: f32, acc: Option<(usize, f32)>) -> Option<(usize, f32)>
    ensures { result ≡ higher i s acc }
{
    match acc {
        Some((_, t)) if !(t < s) => acc,
        _ => Some((i, s)),
    }
}
