// The tests of ranges that the layers above make at the door.
#![tactic(auto)]

ghost use Rattle.std.specs.Prelude.{◌≡◌};
ghost use Rattle.std.specs.Float.Ieee.Positive.{positive};
ghost use Rattle.ranges.specs.Interval.{within};
ghost use Rattle.ranges.specs.Limits.{duration_min, duration_max};

pub use duration::Duration;

mod duration;

// Whether x lies from lo up to hi; a NaN lies nowhere.
pub fn within(x: f32, lo: f32, hi: f32) -> bool
    ensures { result ≡ within lo hi x }
{
    lo <= x && x <= hi
}

// Whether x is finite and above zero.
pub fn is_positive(x: f32) -> bool
    ensures { result ≡ positive x }
{
    0.0 < x && x < f32::INFINITY
}

// Whether refusals 5 to 7 let x pass.
pub fn is_duration(x: f32) -> bool
    ensures { result ≡ within duration_min duration_max x }
{
    within(x, 0.015625, 262144.0)
}
