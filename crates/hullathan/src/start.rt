// A fresh station for a host.
ghost use Rattle.hullathan.specs.Promise.{Begins};

use crate::Started;
use crate::event::is_on;
use plain_station::PlainStation;
use refusals::coded;
use station::Station;

// A fresh station; one of width 1 that does not switch, where the width is above 8.
pub fn started(width: usize, switching: u8) -> Started
    ensures { Begins width switching result.code result.station }
{
    let fresh = Station::fresh(width, is_on(switching));
    Started {
        code: coded(fresh.told),
        station: PlainStation::from(fresh.station),
    }
}
