// What a hint, a gap and a switch make of a station: each changes one copy. Those of `events` stand on them.
ghost use Rattle.std.specs.Prelude.{◌≡◌, cond, eqb};
ghost use Rattle.ranges.specs.Settings.{standard};
ghost use Rattle.bank.specs.Switching.{Chosen};
ghost use Rattle.station_model.specs.declared.Event.TheVariants.{Gap, Hint, Switch};
ghost use Rattle.station_model.specs.declared.Code.TheVariants.{Nothing, Switched};
ghost use Rattle.station_model.specs.Station.{accepted, acted};
ghost use Rattle.station.specs.View.{view};
ghost use Rattle.station.specs.After.{Holds};

use crate::Station;
use crate::inner::open::OpenStation;
use bank::inner::gap::on_gap;
use bank::inner::switch::take_switch;
use ranges::Duration;
use rival::inner::each::hear_one;
use station_model::Code;
use tracker::inner::gaps::set_ratio_hint;
use tracker::inner::speed::dit_estimate;

// A hint, of the primary alone.
pub(crate) fn after_hint(s: &OpenStation, ratio: f32) -> Station
    ensures { Holds result (accepted (view s.now.station) (acted standard (view s.now.station) (Hint ratio))).station }
{
    let mut t = s.station;
    t.primary = set_ratio_hint(s.primary(), ratio).tracker;
    t.accepted = s.station.accepted + 1;
    t
}

// A gap, beside a ready primary: the bank hears it, then the primary, where it is an element gap.
pub(crate) fn after_gap(s: &OpenStation, d: Duration) -> Station
    ensures { Holds result (accepted (view s.now.station) (acted standard (view s.now.station) (Gap d.ms))).station }
{
    let p = s.primary();
    let mut t = s.station;
    t.accepted = s.station.accepted + 1;
    if p.tracker.pair.ready {
        let unit = dit_estimate(p.tracker);
        t.bank = on_gap(s.bank(), p, d).bank;
        t.primary = hear_one(p, unit, d).tracker;
    }
    t
}

// A switch: where nothing is pending, it is only counted.
pub(crate) fn after_switch(s: &OpenStation) -> Station
    requires { Chosen s.now.station.bank s.now.station.primary }
    ensures { Holds result (accepted (view s.now.station) (acted standard (view s.now.station) Switch)).station }
{
    let mut t = s.station;
    t.accepted = s.station.accepted + 1;
    if s.station.bank.pending.is_some() {
        let k = take_switch(s.bank().bank, s.primary(), s.station.serial);
        t.bank = k.bank.bank;
        t.primary = k.primary.tracker;
        t.serial = k.serial;
    }
    t
}

// 2 where the primary's serial changed, else 3.
pub(crate) fn switching(was: u64, is: u64) -> Code
    ensures { result ≡ cond (eqb is was) Nothing Switched }
{
    if is == was {
        Code::Nothing
    } else {
        Code::Switched
    }
}
