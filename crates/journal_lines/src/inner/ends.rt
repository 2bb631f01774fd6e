// The start of a journal, and its end.
ghost use Rattle.std.specs.Prelude.{◌≡◌, ◌≤◌, length};
ghost use Rattle.line_out.specs.Written.{over};
ghost use Rattle.journal_lines.specs.Pieces.{end, start};
ghost use Rattle.journal_lines.specs.Parts.{Goes, viewed};
ghost use Rattle.journal_lines.specs.Runs.{Promises};

use crate::Journal;
use crate::inner::answer::bad;
use line_out::Bytes;
use line_out::inner::write_line;

// A journal of which nothing was read, and what it promises of every input.
pub fn start() -> Journal
    ensures result_value { (viewed result ≡ start) × Goes result }
    ensures promises { Promises result }
{
    Journal {
        station: None,
        held: Bytes::new(),
        left: 4294967295,
    }
}

// The end of the input: a last line without its newline is a bad one.
pub fn end(j: &Journal, out: &mut [u8]) -> usize
    requires goes { Goes j.now }
    requires in_bounds { 80 ≤ length out.old }
    ensures value { result ≡ length (end (viewed j.now)) }
    ensures out_after { out.new ≡ over (end (viewed j.now)) out.old }
{
    if j.held.as_slice().is_empty() {
        return 0;
    }
    write_line(out, bad(&j.station))
}
