// The switch call on a bank and on the tracker that a host lends.
ghost use Rattle.plain_switch.specs.Switch.{Exchanges};

use plain::PlainBank;
use plain_tracker::PlainTracker;

// A switch, where a choice is pending: the challenger and the lent primary, with its serial, are exchanged.
#[unsafe(no_mangle)]
pub extern "C" fn hullathan_bank_take_switch(
    b: &mut PlainBank,
    primary: &mut PlainTracker,
    serial: &mut u64,
) -> u8
    ensures { Exchanges b.old primary.old serial.old result b.new primary.new serial.new }
{
    hullathan::banks::hullathan_bank_take_switch(b, primary, serial)
}
