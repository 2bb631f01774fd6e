// The line, written field by field: each function appends to what is written so far, as far as there is room. By hand:
// what `write!` writes is known only where it succeeds, and no clause says that it does.
ghost use Rattle.std.specs.Prelude.{◌≡◌, ◌∷◌, ◌++◌, ◌≤◌, ◌<◌, length, take};
ghost use Rattle.station_model.specs.declared.Code.{Code};
ghost use Rattle.line_out.specs.Codes.{number, of_code};
ghost use Rattle.line_out.specs.Shown.{tab, digits, hexadecimal, decimal, coded, line};
ghost use Rattle.line_out.specs.Shown.{glyph as Shown·glyph};
ghost use Rattle.line_out.specs.Bytes.{contents};
ghost use Rattle.line_out.specs.Written.{over};

use crate::{Bytes, Shown, ShownCode};

const TAB: u8 = b'\t';

// A line as far as it is written: the longest has 67 bytes.
type Line = Bytes<80>;

// Writes the line at the front of a slice of 80 bytes or more, and answers its length, at most 67; with the code of a
// call, at most 66.
pub fn write_line(out: &mut [u8], s: Shown) -> usize
    requires { 80 ≤ length out.old }
    ensures value { result ≡ length (line s) }
    ensures out_after { out.new ≡ over (line s) out.old }
    ensures upper_bound { result ≤ 67 }
    ensures of_a_call { (c : Code) → s.code ≡ of_code c → result ≤ 66 }
{
    let line = line_of(s);
    let len = line.as_slice().len();
    out[..len].copy_from_slice(line.as_slice());
    len
}

// The line.
fn line_of(s: Shown) -> Line
    ensures value { contents result ≡ line s }
    ensures upper_bound { length (contents result) ≤ 67 }
{
    let mut line = Line::new();
    line.push(s.letter);
    put_code(&mut line, s.code);
    put_word(&mut line, s.dit);
    put_word(&mut line, s.dah);
    put_number(&mut line, s.serial);
    put_number(&mut line, s.challengers);
    line.push(b'\n');
    line
}

// A tab and the code: its number, an R before it if refused.
fn put_code(line: &mut Line, c: ShownCode)
    ensures put { contents line.new ≡ take 80 (contents line.old ++ (tab ∷ coded c)) }
    ensures small { number c < 256 }
{
    line.push(TAB);
    if !c.is_taken() {
        line.push(b'R');
    }
    put_decimal(line, u64::from(c.number()));
}

// A tab and the number in decimal.
fn put_number(line: &mut Line, n: u64)
    ensures { contents line.new ≡ take 80 (contents line.old ++ (tab ∷ decimal n)) }
{
    line.push(TAB);
    put_decimal(line, n);
}

// A number in decimal: the digits of its tenth, and its last one.
fn put_decimal(line: &mut Line, n: u64)
    ensures { contents line.new ≡ take 80 (contents line.old ++ decimal n) }
{
    let tenth = n / 10;
    if tenth > 0 {
        put_decimal(line, tenth);
    }
    line.push(glyph((n % 10) as u8));
}

// A tab and 8 hexadecimal digits.
fn put_word(line: &mut Line, v: u32)
    ensures { contents line.new ≡ take 80 (contents line.old ++ (tab ∷ hexadecimal v)) }
{
    line.push(TAB);
    for i in (0..8u32).rev() {
        line.push(glyph(((v >> (4 * i)) % 16) as u8));
    }
}

// A digit below 16.
fn glyph(d: u8) -> u8
    requires { d < 16 }
    ensures { result ≡ Shown·glyph d }
{
    if d < 10 { b'0' + d } else { b'A' + (d - 10) }
}
