// Replays a list of calls of a station in plain form, one a line of standard input, and prints an answer to each. Both
// files were written by `oracle replay station crates/station_replay`: stdout has the answers of the Rust that the
// library replaces, driven as document 01's "Station" says. A line is a letter, a digit and three fields of 8
// hexadecimal digits, parted by blanks: W a fresh station (the digit: switching; the width), E an event (the digit:
// live; its kind, its number), A shows the rivals and the primary whole.
#![tactic(auto)]

use hullathan::call::called;
use hullathan::start::started;
use plain::{PlainBank, PlainHypothesis};
use plain_station::PlainStation;
use replay::{Line, float, put_byte, put_code, put_flag, put_float, put_long, put_word};
use shown::inner::put_list;
use shown::{put_count, put_departure, put_tracker};
use std::io;
use std::io::{BufWriter, Write};

// What of a bank changes most.
fn put_bank<W: Write>(out: &mut W, b: PlainBank) -> io::Result<()> {
    put_float(out, b.primary_score)?;
    put_float(out, b.primary_gap_score)?;
    put_long(out, b.marks_seen)?;
    put_long(out, b.gaps_seen)?;
    put_code(out, b.has_pending)?;
    put_count(out, b.pending)?;
    put_count(out, b.streak_len)?;
    put_count(out, b.streak_gaps_len)?;
    put_count(out, b.log_len)
}

// The books, the primary's centroids and the bank's counts, after each call.
fn put_books<W: Write>(out: &mut W, s: PlainStation) -> io::Result<()> {
    let p = s.primary;
    let q = p.pair;
    let b = s.bank;
    put_float(out, q.lo)?;
    put_float(out, q.hi)?;
    put_long(out, s.serial)?;
    put_count(out, b.challengers_len)?;
    put_long(out, b.started)?;
    put_long(out, s.twins)?;
    put_long(out, s.outscored)?;
    put_long(out, s.aged)?;
    put_long(out, s.replaced)?;
    put_long(out, s.cleared)?;
    put_long(out, s.accepted)?;
    put_bank(out, b)?;
    put_byte(out, b'\n')
}

fn put_rival<W: Write>(out: &mut W, h: PlainHypothesis) -> io::Result<()> {
    put_long(out, h.serial)?;
    put_float(out, h.score)?;
    put_float(out, h.gap_score)?;
    put_word(out, h.lead_marks)?;
    put_word(out, h.age_marks)?;
    put_code(out, h.origin)?;
    put_word(out, h.retain_marks)?;
    put_code(out, h.reported)?;
    put_float(out, h.ln_lo)?;
    put_float(out, h.ln_hi)?;
    put_tracker(out, &h.tracker)
}

// The primary and its rivals.
fn put_all<W: Write>(out: &mut W, s: PlainStation) -> io::Result<()> {
    put_byte(out, b'A')?;
    put_tracker(out, &s.primary)?;
    for h in s.bank.challengers.iter().take(s.bank.challengers_len) {
        put_rival(out, *h)?;
    }
    put_byte(out, b'\n')
}

fn start<W: Write>(out: &mut W, s: &mut PlainStation, line: &Line) -> io::Result<()> {
    let a = started(line.first() as usize, u8::from(line.flag()));
    *s = a.station;
    put_byte(out, b'W')?;
    put_code(out, a.code % 128)?;
    put_books(out, *s)
}

fn call<W: Write>(out: &mut W, s: &mut PlainStation, line: &Line) -> io::Result<()> {
    let kind = (line.first() % 256) as u8;
    let c = called(*s, kind, u8::from(line.flag()), float(line.second()));
    *s = c.station;
    let a = c.answer;
    put_byte(out, b'E')?;
    put_flag(out, a.code >= 128)?;
    put_code(out, a.code % 128)?;
    put_float(out, a.dit_ms)?;
    put_float(out, a.dah_ms)?;
    put_long(out, a.serial)?;
    put_count(out, a.challengers)?;
    put_list(out, &a.left, a.left_len, put_departure)?;
    put_books(out, *s)
}

// One line in and one out.
fn turn<W: Write>(out: &mut W, s: &mut PlainStation, line: &Line) -> io::Result<()> {
    match line.letter() {
        b'W' => start(out, s, line),
        b'E' => call(out, s, line),
        _ => put_all(out, *s),
    }
}

fn main(rt: HostRuntime) -> io::Result<()> {
    let mut out = BufWriter::new(rt.alloc(), rt.stdout())?;
    let mut station = started(1, 0).station;
    replay::inner::run(&mut rt.stdin(), &mut out, &mut station, turn)
}
