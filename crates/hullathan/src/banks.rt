// The switch call on a bank and on the tracker that a host lends, which the crate `hullathan_c` exports to C and Rust: the
// three are copied out of the host's memory, and what the call by value hands back is stored.
ghost use Rattle.plain_switch.specs.Switch.{Exchanges};

use plain::PlainBank;
use plain_switch::{exchanged, switch_code};
use plain_tracker::PlainTracker;

// A switch, where a choice is pending: the challenger and the lent primary, with its serial, are exchanged.
pub fn hullathan_bank_take_switch(
    b: &mut PlainBank,
    primary: &mut PlainTracker,
    serial: &mut u64,
) -> u8
    ensures { Exchanges b.old primary.old serial.old result b.new primary.new serial.new }
{
    let k = exchanged(*b, *primary, *serial);
    *b = k.bank;
    *primary = k.primary;
    *serial = k.serial;
    switch_code(k.told)
}
