// The gaps that lie in a band, and whether they agree (the Rust's `resolve_unimodal_bootstrap`).
ghost use Rattle.std.specs.Prelude.{◌≡◌, take};
ghost use Rattle.ranges.specs.Settings.{standard};
ghost use Rattle.marks.specs.Band.{in_band, agree, band};

use crate::{Gaps, List, Marks};
use order::is_finite32;

// Whether a gap lies in the band of the dit lo.
pub(crate) fn in_band(lo: f32, g: f32) -> bool
    ensures { result ≡ in_band standard lo g }
{
    is_finite32(g) && lo * (1.0 / 6.0) <= g && g < lo * 0.577_35
}

// The gaps that lie in the band of the dit lo, in order.
pub fn banded(lo: f32, gaps: Gaps) -> List<12>
    ensures { take result.len result.at ≡ band standard lo gaps.entry.at.now }
{
    let mut at = [0.0; 12];
    let mut len = 0;
    for g in gaps.at {
        if in_band(lo, *g) {
            at[len] = *g;
            len += 1;
        }
    }
    List { at, len }
}

impl Marks<'_> {
    // Whether the gaps of a band agree: two at least, that lie close together.
    pub fn agree(self) -> bool
        ensures { result ≡ agree self.entry.at.now }
    {
        if self.at.len() < 2 {
            return false;
        }
        self.deviation(self.mean_wide()) < 0.35
    }
}
