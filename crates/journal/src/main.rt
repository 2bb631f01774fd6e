// The journal program (document 01, "Journal program"): reads lines from standard input, and answers each on standard
// output.
#![tactic(auto)]

ghost use Rattle.std.specs.Prelude.{◌≡◌, false, ◌≤◌, ◌<◌, length, IfOk, IsOk, OnOk};
ghost use Rattle.std.specs.Io.{ReadsAtMost};
ghost use Rattle.std.specs.Io.KnownBytes.{Appends};
ghost use Rattle.ranges.specs.Settings.{standard};
ghost use Rattle.journal_lines.specs.Pieces.{end, feed, start};
ghost use Rattle.journal_lines.specs.Parts.{Goes, viewed};
ghost use Rattle.journal.specs.Program.{Heard, Moved, Read, Reads, Serves, Took, Whole, came};

use journal_lines::Journal;
use journal_lines::inner::ends::{end, start};
use journal_lines::inner::feed::feed;
use std::io::{Read, Write};
use std::process::ExitCode;
use std::{fmt, io};

// Why the program gives up.
#[derive(Debug, Drop)]
enum Failed {
    Read(io::Error),
    Write(io::Error),
    Endless,
}

impl fmt::Display for Failed {
    fn fmt<W: fmt::Write>(&self, f: &mut fmt::Formatter<W>) -> fmt::Result {
        match self {
            Failed::Read(e) => write!(f, "cannot read from standard input: {e}"),
            Failed::Write(e) => write!(f, "cannot write to standard output: {e}"),
            Failed::Endless => write!(f, "standard input does not end"),
        }
    }
}

// Writes the answers to what was heard. `was`, `heard` and `so_far` stand here for what is asked: whose answers these
// are, and that no write failed before them.
fn put<W: Write>(
    was: &Journal,
    heard: &[u8],
    so_far: &Result<(), Failed>,
    answers: &[u8],
    to: &mut W,
) -> Result<(), Failed>
    requires answers { answers.now ≡ (feed standard (viewed was.now) heard.now).put }
    requires well_value { IsOk so_far.now }
    ensures { OnOk result (Appends (W.contents to.old) (W.contents to.new) answers.now) }
{
    to.write_all(answers).map_err(Failed::Write)
}

// A piece of the input is answered, a buffer full at a time.
fn answer<W: Write>(j: &mut Journal, piece: &[u8], out: &mut [u8], to: &mut W) -> Result<(), Failed>
    requires goes { Goes j.old }
    requires in_bounds { 80 ≤ length out.old }
    ensures heard { Heard j.old piece.now j.new result }
    ensures wrote { OnOk result
        (Appends (W.contents to.old) (W.contents to.new) (feed standard (viewed j.old) piece.now).put) }
{
    let mut well = Ok(());
    let mut at = 0;
    while at < piece.len() {
        let was = *j;
        let fed = feed(j, &piece[at..], out);
        let next = at + fed.used;
        well = put(&was, &piece[at..next], &well, &out[..fed.put], to);
        if well.is_err() {
            return well;
        }
        at = next;
    }
    well
}

// What a read answered: it failed, the input is at its end, or so many bytes stand at the front of the buffer. Answers
// whether there is more to read.
fn take<W: Write>(
    j: &mut Journal,
    got: io::Result<usize>,
    buffer: &[u8],
    out: &mut [u8],
    to: &mut W,
) -> Result<bool, Failed>
    requires goes { Goes j.old }
    requires moved { ReadsAtMost got buffer.now }
    requires in_bounds { 80 ≤ length out.old }
    ensures took { Took j.old got buffer.now j.new result }
    ensures wrote { OnOk result
        (Appends (W.contents to.old) (W.contents to.new) (feed standard (viewed j.old) (came got buffer.now)).put) }
{
    let n = got.map_err(Failed::Read)?;
    if n == 0 {
        return Ok(false);
    }
    answer(j, &buffer[..n], out, to)?;
    Ok(j.left > 0)
}

// Reads once, and answers what came; whether there is more to read. It is asked only while a line may be read.
fn read_some<I: Read, W: Write>(
    j: &mut Journal,
    buffer: &mut [u8],
    out: &mut [u8],
    from: &mut I,
    to: &mut W,
) -> Result<bool, Failed>
    requires goes { Goes j.old }
    requires left_nonzero { 0 < j.old.left }
    requires in_bounds { 80 ≤ length out.old }
    ensures read { Read j.old buffer.new j.new result }
    ensures moves { IfOk result (λ more. Moved j.old (length buffer.old) (I.remaining from.old) (I.remaining from.new)
        (W.contents to.old) (W.contents to.new) j.new more) }
{
    let got = from.read(buffer);
    take(j, got, buffer, out, to)
}

// Reads and answers until there is no more. A proved loop has to end, and nothing says that an input does: the loop
// counts its turns, and no run uses them up.
fn run<I: Read, W: Write>(
    j: &mut Journal,
    buffer: &mut [u8],
    out: &mut [u8],
    from: &mut I,
    to: &mut W,
) -> Result<(), Failed>
    requires goes { Goes j.old }
    requires left_nonzero { 0 < j.old.left }
    requires in_bounds { 80 ≤ length out.old }
    ensures reads { Reads j.old j.new }
    ensures moves { OnOk result (Moved j.old (length buffer.old) (I.remaining from.old) (I.remaining from.new)
        (W.contents to.old) (W.contents to.new) j.new false) }
{
    for _ in 0..u64::MAX {
        let more = read_some(j, buffer, out, from, to)?;
        if !more {
            return Ok(());
        }
    }
    Err(Failed::Endless)
}

// Writes what there is at the end, where nothing failed before. `was` and `so_far` stand here for what is asked.
fn put_last<W: Write>(
    was: &Journal,
    so_far: &Result<(), Failed>,
    last: &[u8],
    to: &mut W,
) -> Result<(), Failed>
    requires last_value { last.now ≡ end (viewed was.now) }
    requires well_value { IsOk so_far.now }
    ensures { OnOk result (Appends (W.contents to.old) (W.contents to.new) last.now) }
{
    to.write_all(last).map_err(Failed::Write)
}

// All of it, with a fresh journal, to the end of the input, where a last line without its newline is answered.
fn serve<I: Read, W: Write>(
    j: &mut Journal,
    buffer: &mut [u8],
    out: &mut [u8],
    from: &mut I,
    to: &mut W,
) -> Result<(), Failed>
    requires fresh { viewed j.old ≡ start }
    requires goes { Goes j.old }
    requires in_bounds { 80 ≤ length out.old }
    ensures serves { Serves j.new out.new result }
    ensures whole { 0 < length buffer.old →
        OnOk result (Whole (I.remaining from.old) (W.contents to.old) (W.contents to.new)) }
{
    let ran = run(j, buffer, out, from, to);
    if ran.is_err() {
        return ran;
    }
    let n = end(j, out);
    put_last(j, &ran, &out[..n], to)
}

fn main(rt: HostRuntime) -> ExitCode {
    let mut journal = start();
    let mut buffer = [0u8; 65536];
    let mut out = [0u8; 65536];
    match serve(
        &mut journal,
        &mut buffer,
        &mut out,
        &mut rt.stdin(),
        &mut rt.stdout(),
    ) {
        Ok(()) => ExitCode::SUCCESS,
        Err(e) => {
            let _ = eprintln!(rt; "journal: {e}");
            ExitCode::FAILURE
        }
    }
}
