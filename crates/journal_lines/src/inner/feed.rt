// The input as it comes, in pieces.
ghost use Rattle.std.specs.Prelude.{◌≡◌, length};
ghost use Rattle.ranges.specs.Settings.{standard};
ghost use Rattle.journal_lines.specs.Pieces.{within};
ghost use Rattle.journal_lines.specs.Parts.{Feeds, Goes, viewed};

use crate::inner::answer::{answer, letter, show_one};
use crate::inner::gather::gather;
use crate::{Fed, Journal};
use line_in::{Entry, entry_of};
use line_out::inner::write_line;
use station::inner::call::next;
use station::inner::pace::{Way, beat, idle, space, way_of};

// A piece of the input, as far as there is room for its answers: 80 bytes for each line.
pub fn feed(j: &mut Journal, piece: &[u8], out: &mut [u8]) -> Fed
    requires { Goes j.old }
    ensures feeds { Feeds j.old piece.now out.old out.new j.new result }
    ensures used_value { result.used ≡ within standard (length out.old) (viewed j.old) piece.now }
{
    let mut used = 0;
    let mut put = 0;
    while used < piece.len() && 80 <= out.len() - put {
        match gather(&mut j.held, j.left, &piece[used..]) {
            None => used = piece.len(),
            Some(n) => {
                used += n;
                j.left -= 1;
                let e = entry_of(j.held.as_slice());
                j.held.clear();
                // Here, and not by `answer`: each call of a function clears the room for its copies of the station,
                // which took twice the instructions a line.
                let shown = if let Some(Entry::Call(c)) = e
                    && let Some(s) = &mut j.station
                {
                    let o = match way_of(s, c) {
                        Way::Idle => idle(s, c),
                        Way::Beat(d) => beat(s, c, d),
                        Way::Space(d) => space(s, c, d),
                        Way::Other => next(s, c),
                    };
                    *s = o.station;
                    show_one(s, letter(c), o.answer.code)
                } else {
                    answer(&mut j.station, e)
                };
                put += write_line(&mut out[put..], shown);
            }
        }
    }
    Fed { used, put }
}
