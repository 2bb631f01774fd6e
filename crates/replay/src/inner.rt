// The loop of a program that reads lines: what may ask something of its caller.
use crate::{Line, next};
use std::io;
use std::io::{Read, Write};

// Hands each line to turn, with what is kept from one to the next, until there is none. A proved loop has to end, and
// nothing says that an input does: the loop counts its turns, and no run uses them up.
pub fn run<R: Read, W: Write, S, F: Fn(&mut W, &mut S, &Line) -> io::Result<()>>(
    input: &mut R,
    out: &mut W,
    state: &mut S,
    turn: F,
) -> io::Result<()>
    requires { F.IsAlwaysCallable turn }
{
    for _ in 0..u64::MAX {
        match next(input)? {
            Some(line) => turn(out, state, &line)?,
            None => break,
        }
    }
    out.flush()
}
