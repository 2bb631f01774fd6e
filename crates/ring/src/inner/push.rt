// One mark for the ring.
ghost use Rattle.std.specs.Prelude.{◌≡◌};
ghost use Rattle.pair.specs.Model.{view_pair};
ghost use Rattle.ring.specs.Ring.{entry};

use crate::RingEntry;
use numbers::inner::below_root;
use pair::ClusterPair;

// The mark d for the ring: before it the pair was p, after it q.
pub fn entry(p: ClusterPair, q: ClusterPair, d: f32) -> RingEntry
    ensures { result ≡ entry (view_pair p) (view_pair q) d }
{
    let dit = below_root(d, q.lo * q.hi);
    RingEntry {
        dur_ms: d,
        assigned_dit: dit,
        pre_lo: p.lo,
        pre_hi: p.hi,
    }
}
