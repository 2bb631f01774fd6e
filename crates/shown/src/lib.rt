// What the programs that replay calls of a tracker share: a tracker as it is printed, its parts in order, lists with
// their counts before them, absent numbers left out; a part of one set, and what its calls leave beside its state; and
// the marks that a script lists.
#![tactic(auto)]

ghost use Rattle.std.specs.Prelude.{◌≡◌, ◌++◌, ◌/◌, ◌%◌, OnOk, cond, ltb, take};
ghost use Rattle.std.specs.Io.KnownBytes.{Appends};
ghost use Rattle.marks.specs.Lists.{pushed};
ghost use Rattle.replay.specs.Text.{field_of};

use inner::put_list;
use marks::List;
use marks::inner::places::push;
use plain::PlainDeparture;
use plain_tracker::from::flag_of;
use plain_tracker::{PlainEntry, PlainPair, PlainTracker};
use replay::{put_code, put_flag, put_float, put_long, put_word};
use std::io;
use std::io::Write;

pub mod inner;
pub mod left_over;
pub mod parts;

// The marks or the gaps of the next call, one more than a call takes.
pub type Listed = List<13>;

pub fn none_listed() -> Listed
    ensures { result.len ≡ 0 }
{
    List {
        at: [0.0; 13],
        len: 0,
    }
}

// x on the list; what is beyond its room is no part of it.
pub fn listed(list: Listed, x: f32) -> Listed
    ensures { take result.len result.at ≡
        cond (ltb list.len 13) (pushed 13 (take list.len list.at) x) (take list.len list.at) }
{
    if list.len < 13 { push(list, x) } else { list }
}

// A count; none here is above 32 bits.
pub fn put_count<W: Write>(out: &mut W, n: usize) -> io::Result<()> {
    put_word(out, (n % 4294967296) as u32)
}

// Whether there is a number, and where there is, the number.
pub fn put_held<W: Write>(out: &mut W, has: bool, v: f32) -> io::Result<()> {
    put_flag(out, has)?;
    if has {
        put_float(out, v)?;
    }
    Ok(())
}

// A hypothesis that left.
pub fn put_departure<W: Write>(out: &mut W, d: PlainDeparture) -> io::Result<()>
    ensures { OnOk result (Appends (W.contents out.old) (W.contents out.new)
        ((field_of 8 (d.serial / 4294967296) ++ field_of 8 (d.serial % 4294967296)) ++ field_of 2 d.cause)) }
{
    put_long(out, d.serial)?;
    put_code(out, d.cause)
}

fn put_entry<W: Write>(out: &mut W, e: PlainEntry) -> io::Result<()> {
    put_float(out, e.dur_ms)?;
    put_flag(out, flag_of(e.assigned_dit))?;
    put_float(out, e.pre_lo)?;
    put_float(out, e.pre_hi)
}

fn put_pair<W: Write>(out: &mut W, p: &PlainPair) -> io::Result<()> {
    put_float(out, p.lo)?;
    put_float(out, p.hi)?;
    put_list(out, &p.init, p.init_len, put_float)?;
    put_flag(out, flag_of(p.ready))?;
    put_flag(out, flag_of(p.confirmed))?;
    put_flag(out, flag_of(p.placeholder_is_lo))?;
    put_count(out, p.lo_n)
}

// A tracker in its plain form, whatever stands in it.
pub fn put_tracker<W: Write>(out: &mut W, t: &PlainTracker) -> io::Result<()> {
    put_pair(out, &t.pair)?;
    put_list(out, &t.ring, t.ring_len, put_entry)?;
    put_held(out, flag_of(t.has_wpm), t.wpm_ema)?;
    put_list(out, &t.recent, t.recent_len, put_float)?;
    put_held(out, flag_of(t.has_egap), t.mu_egap_ms)?;
    put_held(out, flag_of(t.has_hint), t.ratio_hint)?;
    put_word(out, t.regime)?;
    put_flag(out, flag_of(t.badlock_recovered))?;
    put_flag(out, flag_of(t.lo_uncorroborated))
}
