// Replays a list of calls of `sender`, one a line of standard input, and prints after each the answer and the
// statistics as they are. stdin was written by `oracle replay sender crates/sender_replay`, and stdout by the Rust that
// the library replaces, from the same list. A line is a letter, the number of a class and three fields of 8 hexadecimal
// digits, parted by blanks: O observe (duration, dit), M mean_dits, R dash_dot_ratio, W sender_word_dits, P is_pause
// (dits), E estimates (dit), S sets a class (mean, variance, count), N starts anew.
#![tactic(auto)]

use exports::of_sender as calls;
use replay::{Line, float, put_answer, put_byte, put_float, put_word};
use sender::{ClassStats, Dits, SenderTiming, TimingClass};
use std::io;
use std::io::{BufWriter, Write};

// A class: its mean, its variance, its count.
fn put_class<W: Write>(out: &mut W, c: ClassStats) -> io::Result<()> {
    put_float(out, c.mean.0)?;
    put_float(out, c.var)?;
    put_word(out, c.n)
}

// The five classes.
fn put_classes<W: Write>(out: &mut W, t: SenderTiming) -> io::Result<()> {
    for c in [t.dot, t.dash, t.element_gap, t.char_gap, t.word_gap] {
        put_class(out, c)?;
    }
    Ok(())
}

// The answer of a call that tells its code alone.
fn put_told<W: Write>(out: &mut W, letter: u8, code: u8) -> io::Result<()> {
    put_answer(out, letter, code, false)?;
    put_float(out, 0.0)
}

// A call that reads a number.
fn put_number<W: Write>(out: &mut W, letter: u8, n: calls::SenderNumber) -> io::Result<()> {
    put_answer(out, letter, n.code, n.has)?;
    put_float(out, n.value)
}

fn put_pause<W: Write>(out: &mut W, t: SenderTiming, dits: f32) -> io::Result<()> {
    let r = calls::hullathan_sender_is_pause_by_value(t, dits);
    put_answer(out, b'P', r.code, r.yes)?;
    put_float(out, 0.0)
}

fn put_report<W: Write>(out: &mut W, t: SenderTiming, dit_ms: f32) -> io::Result<()> {
    let r = calls::hullathan_sender_estimates(t, dit_ms);
    put_answer(out, b'E', r.code, false)?;
    put_float(out, r.dit_ms)?;
    put_classes(out, r.classes)
}

// A call that only reads.
fn read_call<W: Write>(out: &mut W, t: SenderTiming, line: &Line) -> io::Result<()> {
    let letter = line.letter();
    match letter {
        b'M' => put_number(
            out,
            letter,
            calls::hullathan_sender_mean_dits(t, line.number()),
        ),
        b'R' => put_number(out, letter, calls::hullathan_sender_dash_dot_ratio(t)),
        b'W' => put_number(out, letter, calls::hullathan_sender_word_dits(t)),
        b'P' => put_pause(out, t, line.float()),
        _ => put_report(out, t, line.float()),
    }
}

// A class set: a number above 4 is read as the last.
fn set(t: &mut SenderTiming, line: &Line) {
    let class = TimingClass::try_from(line.number()).unwrap_or(TimingClass::WordGap);
    t[class] = ClassStats {
        mean: Dits(line.float()),
        var: float(line.second()),
        n: line.third(),
    };
}

// One call.
fn call<W: Write>(out: &mut W, t: &mut SenderTiming, line: &Line) -> io::Result<()> {
    let letter = line.letter();
    match letter {
        b'O' => {
            let (x, y) = (line.float(), float(line.second()));
            let r = calls::hullathan_sender_observe_by_value(*t, line.number(), x, y);
            *t = r.timing;
            put_told(out, letter, r.code)
        }
        b'S' => {
            set(t, line);
            put_told(out, letter, 0)
        }
        b'N' => {
            *t = calls::hullathan_sender_new();
            put_told(out, letter, 0)
        }
        _ => read_call(out, *t, line),
    }
}

// One line in and one out.
fn turn<W: Write>(out: &mut W, t: &mut SenderTiming, line: &Line) -> io::Result<()> {
    call(out, t, line)?;
    put_classes(out, *t)?;
    put_byte(out, b'\n')
}

fn main(rt: HostRuntime) -> io::Result<()> {
    let mut out = BufWriter::new(rt.alloc(), rt.stdout())?;
    let mut timing = calls::hullathan_sender_new();
    replay::inner::run(&mut rt.stdin(), &mut out, &mut timing, turn)
}
