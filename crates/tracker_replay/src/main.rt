// Replays a list of calls of `tracker`, one a line of standard input, and prints after each the answer and the tracker
// as it is. Both files were written by `oracle replay tracker crates/tracker_replay`: stdout has the answers of the
// Rust that the library replaces. A line is a letter, a digit and three fields of 8 hexadecimal digits, parted by
// blanks: M on_mark, G on_element_gap, W seed_wpm, H set_ratio_hint, each with its number in the first field; F
// bootstrap, T take_badlock_recovered, R reseed_wpm_after_warmup; L puts a gap on the list, and U calls
// resolve_unimodal_bootstrap with the list and empties it; V reads; S sets a part (its number, its place, its value); N
// starts anew.
#![tactic(auto)]

use exports::of_tracker as calls;
use plain_tracker::PlainTracker;
use replay::{Line, put_answer, put_byte, put_code, put_flag, put_float, put_word};
use shown::left_over::{finished, kept, marked};
use shown::parts::set_part;
use shown::{Listed, listed, none_listed, put_tracker};
use std::io;
use std::io::{BufWriter, Write};

// A tracker, and the gaps that the next list has.
#[derive(Clone, Copy)]
struct Run {
    tracker: PlainTracker,
    gaps: Listed,
}

// The answer of a call on the tracker t, and the tracker after it.
fn told<W: Write>(
    out: &mut W,
    t: &PlainTracker,
    letter: u8,
    r: calls::TrackerTold,
) -> io::Result<PlainTracker> {
    put_answer(out, letter, r.code, false)?;
    Ok(kept(t, r.tracker))
}

fn said<W: Write>(
    out: &mut W,
    t: &PlainTracker,
    letter: u8,
    r: calls::TrackerFlagged,
) -> io::Result<PlainTracker> {
    put_answer(out, letter, r.code, r.yes)?;
    Ok(kept(t, r.tracker))
}

fn mark<W: Write>(out: &mut W, t: PlainTracker, x: f32) -> io::Result<PlainTracker> {
    let r = calls::hullathan_tracker_on_mark(t, x);
    put_answer(out, b'M', r.code, false)?;
    Ok(marked(&t, x, r.tracker))
}

fn finish<W: Write>(out: &mut W, t: PlainTracker) -> io::Result<PlainTracker> {
    let r = calls::hullathan_tracker_bootstrap(t);
    put_answer(out, b'F', r.code, r.yes)?;
    Ok(finished(&t, r.tracker))
}

fn put_number<W: Write>(out: &mut W, n: calls::TrackerNumber) -> io::Result<()> {
    put_code(out, n.code)?;
    put_flag(out, n.has)?;
    put_float(out, n.value)
}

// Every call that only reads.
fn put_readings<W: Write>(out: &mut W, t: PlainTracker) -> io::Result<()> {
    let ready = calls::hullathan_tracker_ready(t);
    put_answer(out, b'V', ready.code, ready.yes)?;
    let regime = calls::hullathan_tracker_regime(t);
    put_code(out, regime.code)?;
    put_word(out, regime.value)?;
    put_number(out, calls::hullathan_tracker_mu_dit_ms(t))?;
    put_number(out, calls::hullathan_tracker_mu_dah_ms(t))?;
    put_number(out, calls::hullathan_tracker_boundary_ms(t))?;
    put_number(out, calls::hullathan_tracker_wpm(t))?;
    put_number(out, calls::hullathan_tracker_mu_egap_ms(t))?;
    put_number(out, calls::hullathan_tracker_dit_estimate_ms(t))
}

// A call with one number.
fn number_call<W: Write>(out: &mut W, t: PlainTracker, line: &Line) -> io::Result<PlainTracker> {
    let letter = line.letter();
    let x = line.float();
    match letter {
        b'M' => mark(out, t, x),
        b'G' => told(
            out,
            &t,
            letter,
            calls::hullathan_tracker_on_element_gap(t, x),
        ),
        b'W' => told(out, &t, letter, calls::hullathan_tracker_seed_wpm(t, x)),
        _ => told(
            out,
            &t,
            letter,
            calls::hullathan_tracker_set_ratio_hint(t, x),
        ),
    }
}

// A call with none.
fn plain_call<W: Write>(out: &mut W, t: PlainTracker, letter: u8) -> io::Result<PlainTracker> {
    match letter {
        b'F' => finish(out, t),
        b'T' => said(
            out,
            &t,
            letter,
            calls::hullathan_tracker_take_badlock_recovered(t),
        ),
        b'R' => told(
            out,
            &t,
            letter,
            calls::hullathan_tracker_reseed_wpm_after_warmup(t),
        ),
        b'N' => {
            put_answer(out, letter, 0, false)?;
            Ok(calls::hullathan_tracker_new())
        }
        _ => {
            put_readings(out, t)?;
            Ok(t)
        }
    }
}

// The call with the list.
fn resolve<W: Write>(out: &mut W, r: Run) -> io::Result<PlainTracker> {
    let gaps = &r.gaps.at[..r.gaps.len];
    let answer = calls::hullathan_tracker_resolve_unimodal_bootstrap(r.tracker, gaps);
    said(out, &r.tracker, b'U', answer)
}

// One call: the tracker after it.
fn call<W: Write>(out: &mut W, r: Run, line: &Line) -> io::Result<PlainTracker> {
    let mut t = r.tracker;
    match line.letter() {
        b'M' | b'G' | b'W' | b'H' => number_call(out, t, line),
        b'U' => resolve(out, r),
        b'S' => {
            set_part(&mut t, line.first(), line.second(), line.third());
            put_answer(out, b'S', 0, false)?;
            Ok(t)
        }
        letter => plain_call(out, t, letter),
    }
}

// One line: a gap goes on the list, and every call empties it.
fn turn<W: Write>(out: &mut W, r: &mut Run, line: &Line) -> io::Result<()> {
    if line.letter() == b'L' {
        r.gaps = listed(r.gaps, line.float());
        return Ok(());
    }
    r.tracker = call(out, *r, line)?;
    r.gaps = none_listed();
    put_tracker(out, &r.tracker)?;
    put_byte(out, b'\n')
}

fn main(rt: HostRuntime) -> io::Result<()> {
    let mut out = BufWriter::new(rt.alloc(), rt.stdout())?;
    let mut first = Run {
        tracker: calls::hullathan_tracker_new(),
        gaps: none_listed(),
    };
    replay::inner::run(&mut rt.stdin(), &mut out, &mut first, turn)
}
