// A station at its start.
ghost use Rattle.std.specs.Prelude.{◌≡◌, ◌≤◌};
ghost use Rattle.bank_model.specs.Departures.{widest};
ghost use Rattle.station_model.specs.Station.{fresh};
ghost use Rattle.station.specs.View.{view};
ghost use Rattle.station.specs.Parts.{Steady};

use crate::Station;
use bank::inner::fresh as of_bank;
use station_model::Counts;
use tracker::inner::begin as of_tracker;

// A fresh tracker as primary and a fresh bank, all counts 0; width 0 counts as 1.
pub fn fresh(width: usize, switching: bool) -> Station
    requires { width ≤ widest }
    ensures { (view result ≡ fresh width switching) × Steady result }
{
    Station {
        primary: of_tracker::fresh().tracker,
        serial: 0,
        bank: of_bank::fresh(width, switching).bank,
        counts: Counts::default(),
        accepted: 0,
    }
}
