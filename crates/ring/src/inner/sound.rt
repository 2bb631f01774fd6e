// Whether a ring is sound (document 01, refusal 1).
ghost use Rattle.std.specs.Prelude.{◌≡◌, take};
ghost use Rattle.ranges.specs.Settings.{standard};
ghost use Rattle.ring.specs.Ring.{entry_sound, ring_sound};

use crate::RingEntry;
use pair::inner::sound::are_centroids;
use ranges::is_duration;

// Whether a mark of the ring is sound.
pub(crate) fn is_entry_sound(e: RingEntry) -> bool
    ensures { result ≡ entry_sound standard e }
{
    is_duration(e.dur_ms) && are_centroids(e.pre_lo, e.pre_hi)
}

// Whether the first n marks of a ring are sound.
pub fn is_ring_sound(ring: &[RingEntry; 12], n: usize) -> bool
    ensures { result ≡ ring_sound standard (take n ring.now) }
{
    ring.iter().take(n).all(|e| is_entry_sound(*e))
}
