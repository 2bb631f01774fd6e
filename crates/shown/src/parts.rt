// The parts of a tracker's plain form that a line may set, by their numbers: the struct's fields in order, without the
// pads.
ghost use Rattle.std.specs.Prelude.{◌≡◌, ◌==◌, cond};

use plain_tracker::{PlainEntry, PlainPair, PlainTracker};
use replay::float;

// A flag as a line gives it.
pub fn flag(v: u32) -> u8
    ensures { result ≡ cond (v == 0) 0 1 }
{
    u8::from(v != 0)
}

fn set_pair(p: &mut PlainPair, part: u32, i: usize, v: u32) {
    match part {
        0 => p.lo = float(v),
        1 => p.hi = float(v),
        2 => p.init_len = v as usize,
        3 if i < 12 => p.init[i] = float(v),
        4 => p.ready = flag(v),
        5 => p.confirmed = flag(v),
        6 => p.placeholder_is_lo = flag(v),
        3 => {}
        _ => p.lo_n = v as usize,
    }
}

fn set_entry(e: &mut PlainEntry, part: u32, v: u32) {
    match part {
        9 => e.dur_ms = float(v),
        10 => e.assigned_dit = flag(v),
        11 => e.pre_lo = float(v),
        _ => e.pre_hi = float(v),
    }
}

// One part of a tracker set: its number, its place and its value.
pub fn set_part(t: &mut PlainTracker, part: u32, place: u32, v: u32) {
    let i = place as usize;
    match part {
        0..=7 => set_pair(&mut t.pair, part, i, v),
        8 => t.ring_len = v as usize,
        9..=12 if i < 12 => set_entry(&mut t.ring[i], part, v),
        13 => t.has_wpm = flag(v),
        14 => t.wpm_ema = float(v),
        15 => t.recent_len = v as usize,
        16 if i < 5 => t.recent[i] = float(v),
        17 => t.has_egap = flag(v),
        18 => t.mu_egap_ms = float(v),
        19 => t.has_hint = flag(v),
        20 => t.ratio_hint = float(v),
        21 => t.regime = v,
        22 => t.badlock_recovered = flag(v),
        9..=12 | 16 => {}
        _ => t.lo_uncorroborated = flag(v),
    }
}
