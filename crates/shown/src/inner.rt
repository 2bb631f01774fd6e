// What prints by a function that it is handed, and asks that it may be called.
use crate::put_count;
use replay::put_flag;
use std::io;
use std::io::Write;

// Whether there is one, and where there is, the one.
pub fn put_option<W: Write, T: Copy, F: FnOnce(&mut W, T) -> io::Result<()>>(
    out: &mut W,
    held: Option<T>,
    put: F,
) -> io::Result<()>
    requires { F.IsAlwaysCallable put }
{
    put_flag(out, held.is_some())?;
    if let Some(x) = held {
        put(out, x)?;
    }
    Ok(())
}

// A list of n, as far as there are places for them.
pub fn put_list<W: Write, T: Copy, F: Fn(&mut W, T) -> io::Result<()>>(
    out: &mut W,
    list: &[T],
    n: usize,
    put: F,
) -> io::Result<()>
    requires { F.IsAlwaysCallable put }
{
    put_count(out, n)?;
    for x in list.iter().take(n) {
        put(out, *x)?;
    }
    Ok(())
}
