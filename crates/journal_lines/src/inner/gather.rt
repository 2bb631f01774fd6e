// The bytes of a line, as they come.
ghost use Rattle.std.specs.Prelude.{◌≡◌, eqb, position};
ghost use Rattle.line_out.specs.Bytes.{contents};
ghost use Rattle.journal_lines.specs.Parts.{Gathers};

use line_out::Bytes;

// Where the first newline of a piece is.
fn newline(piece: &[u8]) -> Option<usize>
    ensures { result ≡ position (λ b. eqb b 10) piece.now }
{
    piece.iter().position(|b| *b == b'\n')
}

// Holds the bytes of a piece up to its first newline, and answers how many they are with it; where there is none, or no
// line may be read any more, all bytes of the piece are taken. They are held as far as there is room for them: a line
// that has so many is bad whatever follows.
pub fn gather(line: &mut Bytes<80>, left: u64, piece: &[u8]) -> Option<usize>
    ensures { Gathers left (contents line.old) piece.now (contents line.new) result }
{
    if left == 0 {
        return None;
    }
    match newline(piece) {
        Some(n) => {
            line.write(&piece[..n]);
            Some(n + 1)
        }
        None => {
            line.write(piece);
            None
        }
    }
}
