// What the programs that replay a list of calls share: lines of a script, and numbers as text.
//
// A line has 31 bytes: a letter, a digit and three fields of 8 hexadecimal digits, parted by blanks, and the newline.
#![tactic(auto)]

ghost use Rattle.std.specs.Prelude.{◌++◌, ◌/◌, ◌%◌, ◌≡◌, ◌==◌, ◌<◌, ◌≤◌, ◌+◌, ◌*◌, ◌∷◌};
ghost use Rattle.std.specs.Prelude.{[], OnOk, IfOk, IfSome, cond, slice_index};
ghost use Rattle.std.specs.Float.Ieee.{binary32, is_nan, to_bits};
ghost use Rattle.std.specs.Io.KnownBytes.{Appends, Consumes};
ghost use Rattle.replay.specs.Text.{digit_of, field_of, float_of, glyph_of, number_at};

use std::io;
use std::io::{ErrorKind, Read, Write};

pub mod inner;

// A line as it was read.
#[derive(Clone, Copy)]
pub struct Line {
    pub bytes: [u8; 31],
}

impl Line {
    // The letter, the digit and the fields.
    pub fn letter(&self) -> u8
        ensures { result ≡ slice_index self.now.bytes 0 }
    {
        self.bytes[0]
    }

    pub fn number(&self) -> u8
        ensures { result ≡ digit_of (slice_index self.now.bytes 2) }
    {
        digit(self.bytes[2])
    }

    // Whether the digit is 1.
    pub fn flag(&self) -> bool
        ensures { result ≡ (digit_of (slice_index self.now.bytes 2) == 1) }
    {
        self.number() == 1
    }

    pub fn first(&self) -> u32
        ensures { result ≡ number_at 8 self.now.bytes 4 }
    {
        word(&self.bytes, 4)
    }

    pub fn second(&self) -> u32
        ensures { result ≡ number_at 8 self.now.bytes 13 }
    {
        word(&self.bytes, 13)
    }

    pub fn third(&self) -> u32
        ensures { result ≡ number_at 8 self.now.bytes 22 }
    {
        word(&self.bytes, 22)
    }

    // The first field as a float: most calls have that and nothing else.
    pub fn float(&self) -> f32
        ensures { result ≡ float_of (number_at 8 self.now.bytes 4) }
    {
        float(self.first())
    }
}

// Reads the next line, where there is one.
pub fn next<R: Read>(input: &mut R) -> io::Result<Option<Line>>
    ensures { IfOk result (λ line. IfSome line (λ l.
        Consumes (R.remaining input.old) (R.remaining input.new) l.bytes)) }
{
    let mut bytes = [0; 31];
    match input.read_exact(&mut bytes) {
        Ok(()) => Ok(Some(Line { bytes })),
        Err(e) if e.kind() == ErrorKind::UnexpectedEof => Ok(None),
        Err(e) => Err(e),
    }
}

// The value of a digit; of any other byte, 0.
fn digit(b: u8) -> u8
    ensures bound { result < 16 }
    ensures value { result ≡ digit_of b }
{
    match b {
        b'0'..=b'9' => b - b'0',
        b'A'..=b'F' => b - b'A' + 10,
        _ => 0,
    }
}

// The field of 8 digits that begins at a place of the line.
fn word(line: &[u8; 31], at: usize) -> u32
    requires { at + 8 ≤ 31 }
    ensures { result ≡ number_at 8 line.now at }
{
    let mut n = 0;
    for b in &line[at..at + 8] {
        n = n * 16 + u32::from(digit(*b));
    }
    n
}

// The float of a pattern; of every pattern of a NaN, one NaN.
pub fn float(bits: u32) -> f32
    ensures { result ≡ float_of bits }
{
    if bits % 0x8000_0000 > 0x7f80_0000 {
        f32::NAN
    } else {
        f32::from_bits(bits)
    }
}

pub fn put_byte<W: Write>(out: &mut W, b: u8) -> io::Result<()>
    ensures { OnOk result (Appends (W.contents out.old) (W.contents out.new) (b ∷ [])) }
{
    out.write_all(&[b])
}

// The digit of a value below 16.
fn glyph(d: u32) -> u8
    requires { d < 16 }
    ensures { result ≡ glyph_of d }
{
    let digits = b"0123456789ABCDEF";
    digits[d as usize]
}

// A blank and 8 digits, in one write, as of each value here: `write!` makes several, so that a write that fails would
// leave another part of the text written.
pub fn put_word<W: Write>(out: &mut W, v: u32) -> io::Result<()>
    ensures { OnOk result (Appends (W.contents out.old) (W.contents out.new) (field_of 8 v)) }
{
    let text = [
        b' ',
        glyph(v / 0x1000_0000),
        glyph(v / 0x100_0000 % 16),
        glyph(v / 0x10_0000 % 16),
        glyph(v / 0x1_0000 % 16),
        glyph(v / 0x1000 % 16),
        glyph(v / 0x100 % 16),
        glyph(v / 0x10 % 16),
        glyph(v % 16),
    ];
    out.write_all(&text)
}

// A number of 64 bits, its upper half first.
pub fn put_long<W: Write>(out: &mut W, n: u64) -> io::Result<()>
    ensures { OnOk result (Appends (W.contents out.old) (W.contents out.new)
        (field_of 8 (n / 4294967296) ++ field_of 8 (n % 4294967296))) }
{
    put_word(out, (n / 4294967296) as u32)?;
    put_word(out, (n % 4294967296) as u32)
}

// A float's pattern; a NaN has one.
pub fn put_float<W: Write>(out: &mut W, v: f32) -> io::Result<()>
    ensures { OnOk result (Appends (W.contents out.old) (W.contents out.new)
        (field_of 8 (cond (is_nan v) 0x7fc0_0000 (to_bits binary32 v)))) }
{
    if v.is_nan() {
        put_word(out, 0x7fc0_0000)
    } else {
        put_word(out, f32::to_bits(v))
    }
}

// A blank and 2 digits.
pub fn put_code<W: Write>(out: &mut W, code: u8) -> io::Result<()>
    ensures { OnOk result (Appends (W.contents out.old) (W.contents out.new) (field_of 2 code)) }
{
    let v = u32::from(code);
    let text = [b' ', glyph(v / 16), glyph(v % 16)];
    out.write_all(&text)
}

// A blank, and 1 for yes.
pub fn put_flag<W: Write>(out: &mut W, is: bool) -> io::Result<()>
    ensures { OnOk result (Appends (W.contents out.old) (W.contents out.new) (32 ∷ cond is 49 48 ∷ [])) }
{
    let text = [b' ', if is { b'1' } else { b'0' }];
    out.write_all(&text)
}

// The start of an answer: its letter, its code, and whether it says yes.
pub fn put_answer<W: Write>(out: &mut W, letter: u8, code: u8, yes: bool) -> io::Result<()>
    ensures { OnOk result (Appends (W.contents out.old) (W.contents out.new)
        (letter ∷ field_of 2 code ++ 32 ∷ cond yes 49 48 ∷ [])) }
{
    put_byte(out, letter)?;
    put_code(out, code)?;
    put_flag(out, yes)
}
