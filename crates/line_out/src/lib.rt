// Writing an output line of the journal (document 01, "Journal program").
#![tactic(auto)]

ghost use Rattle.std.specs.Prelude.{◌≡◌, cond, length};
ghost use Rattle.line_out.specs.Codes.{number, of_code, taken};
ghost use Rattle.line_out.specs.Shown.{line};
ghost use Rattle.line_out.specs.Written.{over, roomy};

use station_model::Code;

mod bytes;
pub mod inner;

pub use bytes::Bytes;

// A code as a line shows it: the line has any number of a refusal, also one that this project doesn't have.
#[derive(Clone, Copy, Debug, PartialEq, Eq)]
pub enum ShownCode {
    Done,
    BecameReady,
    Switched,
    Nothing,
    Refused(u8),
}

impl ShownCode {
    // Whether no R stands before it.
    pub fn is_taken(self) -> bool
        ensures { result ≡ taken self }
    {
        !matches!(self, ShownCode::Refused(_))
    }

    // Its number; of a refused call its refusal's.
    pub fn number(self) -> u8
        ensures { result ≡ number self }
    {
        match self {
            ShownCode::Done => 0,
            ShownCode::BecameReady => 1,
            ShownCode::Switched => 2,
            ShownCode::Nothing => 3,
            ShownCode::Refused(n) => n,
        }
    }
}

impl From<Code> for ShownCode {
    ghost from_gives = { λ c s. s ≡ of_code c };

    fn from(code: Code) -> ShownCode {
        match code {
            Code::Done => ShownCode::Done,
            Code::BecameReady => ShownCode::BecameReady,
            Code::Switched => ShownCode::Switched,
            Code::Nothing => ShownCode::Nothing,
            Code::Refused(refusal) => ShownCode::Refused(u8::from(refusal)),
        }
    }
}

// What an output line shows; the centroids by their f32's bits.
#[derive(Clone, Copy)]
pub struct Shown {
    pub letter: u8,
    pub code: ShownCode,
    pub dit: u32,
    pub dah: u32,
    pub serial: u64,
    pub challengers: u64,
}

// Writes the line at the front of a slice, and answers its length; where the slice has fewer than 80 bytes, it writes
// nothing and answers 0.
pub fn write_line(out: &mut [u8], s: Shown) -> usize
    ensures value { result ≡ cond (roomy out.old) (length (line s)) 0 }
    ensures out_after { out.new ≡ cond (roomy out.old) (over (line s) out.old) out.old }
{
    if out.len() < 80 {
        return 0;
    }
    inner::write_line(out, s)
}
