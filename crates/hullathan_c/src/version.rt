// What a host asks before its first call: whether the archive is the one that its declarations were written for.
ghost use Rattle.std.specs.Prelude.{◌≡◌};
ghost use Rattle.hullathan.specs.Version.{size_of, version};

// The version of the interface.
#[unsafe(no_mangle)]
pub extern "C" fn hullathan_version() -> u32
    ensures { result ≡ version }
{
    hullathan::version::hullathan_version()
}

// How many bytes a struct has: 0 station, 1 answer, 2 event, 3 batch, 4 reading, 5 bank, 6 tracker, 7 sender, 8 what is
// read of a sender; 0 of any other number.
#[unsafe(no_mangle)]
pub extern "C" fn hullathan_size(what: u8) -> usize
    ensures { result ≡ size_of what }
{
    hullathan::version::hullathan_size(what)
}
