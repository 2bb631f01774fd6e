// Replays a list of calls of `bank` and of the primary beside it, one a line of standard input, and prints an answer to
// each. Both files were written by `oracle replay bank crates/bank_replay`: stdout has the answers of the Rust that the
// library replaces, with document 01's refusals, serials and departures. A line is a letter, a digit and three fields
// of 8 hexadecimal digits, parted by blanks. N new (the digit: switching; the width), M on_mark (the digit: live), G
// on_gap, L puts a mark on the list, R calls on_ready with the list and empties it, C clear, X take_switch, V reads (a
// place), A shows bank and primary whole; m on_mark, g on_element_gap, w seed_wpm, f bootstrap of the primary, n a
// fresh primary, I its serial; S sets a part of the bank, T one of the tracker of the challenger that the digit names,
// s one of the primary (its number, its place, its value).
#![tactic(auto)]

use crate::banks::{put_bank, put_hypothesis, put_record, put_short};
use exports::{of_bank as calls, of_tracker as trackers};
use plain::PlainBank;
use plain_tracker::PlainTracker;
use plain_tracker::from::tracker_of;
use replay::{Line, put_answer, put_byte, put_code, put_long};
use shown::inner::{put_list, put_option};
use shown::left_over::{finished, kept, marked};
use shown::parts::set_part;
use shown::{Listed, listed, none_listed, put_departure, put_tracker};
use std::io;
use std::io::{BufWriter, Write};

mod banks;
mod parts;

// A bank, the primary beside it with its serial, and the marks that the next list has.
#[derive(Drop)]
struct Run {
    bank: PlainBank,
    primary: PlainTracker,
    serial: u64,
    marks: Listed,
}

// The end of a call that left the bank b, and of its answer, what changes most: the list is empty again.
fn left<W: Write>(out: &mut W, r: &mut Run, b: PlainBank) -> io::Result<()> {
    r.bank = b;
    r.marks = none_listed();
    put_short(out, b)?;
    put_byte(out, b'\n')
}

// An answer with those that left.
fn answered<W: Write>(
    out: &mut W,
    r: &mut Run,
    letter: u8,
    a: calls::BankAnswered,
) -> io::Result<()> {
    put_byte(out, letter)?;
    put_code(out, a.code)?;
    put_list(out, &a.left, a.left_len, put_departure)?;
    left(out, r, a.bank)
}

fn heard<W: Write>(out: &mut W, r: &mut Run, letter: u8, a: calls::BankHeard) -> io::Result<()> {
    put_byte(out, letter)?;
    put_code(out, a.code)?;
    left(out, r, a.bank)
}

fn switched<W: Write>(out: &mut W, r: &mut Run, a: calls::BankSwitched) -> io::Result<()> {
    r.primary = a.primary;
    r.serial = a.serial;
    put_answer(out, b'X', a.code, a.yes)?;
    put_long(out, a.serial)?;
    left(out, r, a.bank)
}

fn put_tally<W: Write>(out: &mut W, t: calls::BankTally) -> io::Result<()> {
    put_code(out, t.code)?;
    put_long(out, t.value)
}

// The challenger and the switch record at a place.
fn put_place<W: Write>(out: &mut W, b: PlainBank, i: usize) -> io::Result<()> {
    let c = calls::hullathan_bank_challenger(b, i);
    put_code(out, c.code)?;
    put_option(out, c.has.then_some(c.challenger), put_hypothesis)?;
    let l = calls::hullathan_bank_switch_record(b, i);
    put_code(out, l.code)?;
    put_option(out, l.has.then_some(l.entry), put_record)
}

// Every call that only reads.
fn put_readings<W: Write>(out: &mut W, b: PlainBank, i: usize) -> io::Result<()> {
    put_byte(out, b'V')?;
    put_tally(out, calls::hullathan_bank_hypotheses(b))?;
    put_tally(out, calls::hullathan_bank_marks_seen(b))?;
    put_tally(out, calls::hullathan_bank_gaps_seen(b))?;
    put_place(out, b, i)?;
    put_byte(out, b'\n')
}

fn put_all<W: Write>(out: &mut W, r: &Run) -> io::Result<()> {
    put_byte(out, b'A')?;
    put_bank(out, r.bank)?;
    put_long(out, r.serial)?;
    put_tracker(out, &r.primary)?;
    put_byte(out, b'\n')
}

// A call of the primary: its code.
fn told<W: Write>(out: &mut W, letter: u8, code: u8) -> io::Result<()> {
    put_byte(out, letter)?;
    put_code(out, code)?;
    put_byte(out, b'\n')
}

fn begun<W: Write>(out: &mut W, p: &mut PlainTracker) -> io::Result<()> {
    let a = trackers::hullathan_tracker_bootstrap(*p);
    *p = finished(p, a.tracker);
    put_answer(out, b'f', a.code, a.yes)?;
    put_byte(out, b'\n')
}

fn primary_call<W: Write>(out: &mut W, p: &mut PlainTracker, line: &Line) -> io::Result<()> {
    let letter = line.letter();
    let t = *p;
    let x = line.float();
    match letter {
        b'm' => {
            let a = trackers::hullathan_tracker_on_mark(t, x);
            *p = marked(&t, x, a.tracker);
            told(out, letter, a.code)
        }
        b'g' => {
            let a = trackers::hullathan_tracker_on_element_gap(t, x);
            *p = kept(&t, a.tracker);
            told(out, letter, a.code)
        }
        b'w' => {
            let a = trackers::hullathan_tracker_seed_wpm(t, x);
            *p = kept(&t, a.tracker);
            told(out, letter, a.code)
        }
        b'f' => begun(out, p),
        _ => {
            *p = trackers::hullathan_tracker_new();
            Ok(())
        }
    }
}

// A part of a tracker set, as a line says.
fn set_tracker(t: &mut PlainTracker, line: &Line) {
    set_part(t, line.first(), line.second(), line.third());
}

// A part of a challenger's tracker set: what is then no part of its state is emptied.
fn set_rival(b: &mut PlainBank, line: &Line) {
    let k = usize::from(line.number());
    if k < 8 {
        let mut t = b.challengers[k].tracker;
        set_tracker(&mut t, line);
        b.challengers[k].tracker = PlainTracker::from(tracker_of(t));
    }
}

// What is set before the next call: nothing is printed, and where it is of the bank, the list is empty again.
fn set(r: &mut Run, line: &Line) {
    match line.letter() {
        b'S' => {
            parts::set_part(&mut r.bank, line);
            r.marks = none_listed();
        }
        b'T' => {
            set_rival(&mut r.bank, line);
            r.marks = none_listed();
        }
        b's' => set_tracker(&mut r.primary, line),
        _ => r.serial = u64::from(line.first()) * 4294967296 + u64::from(line.second()),
    }
}

// A call of the bank.
fn call<W: Write>(out: &mut W, r: &mut Run, line: &Line) -> io::Result<()> {
    let letter = line.letter();
    let b = r.bank;
    let p = r.primary;
    let x = line.float();
    let n = line.first() as usize;
    let on = line.flag();
    match letter {
        b'N' => heard(out, r, letter, calls::hullathan_bank_new(n, on)),
        b'M' => answered(out, r, letter, calls::hullathan_bank_on_mark(b, p, x, on)),
        b'G' => heard(out, r, letter, calls::hullathan_bank_on_gap(b, p, x)),
        b'R' => {
            let a = calls::hullathan_bank_on_ready(b, p, &r.marks.at[..r.marks.len]);
            answered(out, r, letter, a)
        }
        b'C' => answered(out, r, letter, calls::hullathan_bank_clear(b)),
        b'X' => {
            let a = calls::hullathan_bank_take_switch_by_value(b, p, r.serial);
            switched(out, r, a)
        }
        b'V' => put_readings(out, b, n),
        _ => put_all(out, r),
    }
}

// One line.
fn turn<W: Write>(out: &mut W, r: &mut Run, line: &Line) -> io::Result<()> {
    match line.letter() {
        b'L' => {
            r.marks = listed(r.marks, line.float());
            Ok(())
        }
        b'S' | b'T' | b's' | b'I' => {
            set(r, line);
            Ok(())
        }
        b'm' | b'g' | b'w' | b'f' | b'n' => primary_call(out, &mut r.primary, line),
        _ => call(out, r, line),
    }
}

fn first_run() -> Run {
    Run {
        bank: calls::hullathan_bank_new(1, false).bank,
        primary: trackers::hullathan_tracker_new(),
        serial: 0,
        marks: none_listed(),
    }
}

fn main(rt: HostRuntime) -> io::Result<()> {
    let mut out = BufWriter::new(rt.alloc(), rt.stdout())?;
    replay::inner::run(&mut rt.stdin(), &mut out, &mut first_run(), turn)
}
