// From a plain form to its station. What lies beyond a count, or is marked absent, is no part of it.
ghost use Rattle.std.specs.Prelude.{◌≡◌};
ghost use Rattle.plain.specs.Plain.{Reads};
ghost use Rattle.plain_station.specs.Plain.{is_station, station_of};

use crate::PlainStation;
use plain::from::bank_from;
use plain::is::is_bank;
use plain_tracker::from::tracker_of;
use plain_tracker::is::is_tracker;
use refusals::Refusal;
use station::Station;
use station_model::Counts;

// Whether a plain form is a station's.
pub fn is_station(p: PlainStation) -> bool
    ensures { result ≡ is_station p }
{
    is_tracker(p.primary) && is_bank(p.bank)
}

// The station of a plain form, each number read as it stands.
pub fn station_from(p: PlainStation) -> Station
    ensures { result ≡ station_of p }
{
    Station {
        primary: tracker_of(p.primary),
        serial: p.serial,
        bank: bank_from(p.bank),
        counts: Counts {
            twins: p.twins,
            outscored: p.outscored,
            aged: p.aged,
            replaced: p.replaced,
            cleared: p.cleared,
        },
        accepted: p.accepted,
    }
}

// The station of a plain form, where it is one.
impl TryFrom<PlainStation> for Station {
    type Error = Refusal;

    ghost try_from_gives = { λ p r. Reads (is_station p) (station_of p) r };

    fn try_from(p: PlainStation) -> Result<Station, Refusal> {
        if is_station(p) {
            Ok(station_from(p))
        } else {
            Err(Refusal::UnsoundState)
        }
    }
}
