// Marks in arrays: tested, copied, moved on by one.
ghost use Rattle.std.specs.Prelude.{◌≡◌, take, length, ◌≤◌, ◌<◌};
ghost use Rattle.marks.specs.Lists.{all_durations, pushed};

use crate::List;
use ranges::is_duration;

// d is the latest of a list; where there is no room, the first goes.
pub fn push<const N: usize>(list: List<N>, d: f32) -> List<N>
    requires { 0 < N }
    ensures { take result.len result.at ≡ pushed N (take list.entry.len list.entry.at) d }
{
    let mut at = list.at;
    let len = list.len;
    if len < N {
        at[len] = d;
        return List { at, len: len + 1 };
    }
    at.rotate_left(1);
    at[N - 1] = d;
    List { at, len }
}

// Up to twelve marks at the head of an array of twelve.
pub fn copied(marks: &[f32]) -> [f32; 12]
    requires { length marks.now ≤ 12 }
    ensures { take (length marks.now) result ≡ marks.now }
{
    let mut out = [0.0; 12];
    out[..marks.len()].copy_from_slice(marks);
    out
}

// Whether each is a duration.
pub fn all_durations(xs: &[f32]) -> bool
    ensures { result ≡ all_durations xs.now }
{
    xs.iter().all(|x| is_duration(*x))
}
