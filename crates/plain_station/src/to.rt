// From a station to its plain form. What lies beyond a count, or is marked absent, is left empty.
ghost use Rattle.std.specs.Prelude.{◌≡◌};
ghost use Rattle.plain_station.specs.Plain.{plain_station};

use crate::PlainStation;
use plain::PlainBank;
use plain_tracker::PlainTracker;
use station::Station;

// A station.
impl From<Station> for PlainStation {
    ghost from_gives = { λ s p. p ≡ plain_station s };

    fn from(s: Station) -> PlainStation {
        PlainStation {
            primary: PlainTracker::from(s.primary),
            serial: s.serial,
            bank: PlainBank::from(s.bank),
            twins: s.counts.twins,
            outscored: s.counts.outscored,
            aged: s.counts.aged,
            replaced: s.counts.replaced,
            cleared: s.counts.cleared,
            accepted: s.accepted,
        }
    }
}
