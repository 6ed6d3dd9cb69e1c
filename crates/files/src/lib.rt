// The files that the programs read. Of the bytes that come from outside no promise can speak; of their number it does.
#![tactic(auto)]

ghost use Rattle.std.specs.Prelude.{◌≤◌, length, IfOk, IfSome};

use std::io::{ErrorKind, Read};
use std::rt::Files;
use std::{fs, io};

// A file that can't be read was reported on standard error.
#[derive(Clone, Copy, Debug, PartialEq, Eq)]
pub struct Unreadable;

// Reads until the buffer is full, the file ends or a read fails; how many bytes there are.
fn read_all<R: Read>(file: &mut R, buf: &mut [u8]) -> io::Result<usize>
    ensures { IfOk result (λ n. n ≤ length buf.new) }
{
    let mut n = 0;
    while n < buf.len() {
        let more = file.read(&mut buf[n..])?;
        if more == 0 {
            break;
        }
        n += more;
    }
    Ok(n)
}

// A line on standard error: what failed, and why. Where this fails nobody is left to be told.
fn report<R: Eprint>(rt: &R, what: &str, e: io::Error) -> Unreadable {
    let _ = eprintln!(rt; "{what}: {e}");
    Unreadable
}

// The bytes of a file, as far as the buffer goes; none where there is no such file. Any other error makes it unreadable.
pub fn load<'a, R: Files + Eprint>(
    rt: &R,
    path: &str,
    buf: &'a mut [u8],
) -> Result<Option<&'a [u8]>, Unreadable>
    ensures { IfOk result (λ found. IfSome found (λ bytes. length bytes.now ≤ length buf.old)) }
{
    let mut file = match fs::open(rt, path) {
        Ok(file) => file,
        Err(e) if e.kind() == ErrorKind::NotFound => return Ok(None),
        Err(e) => return Err(report(rt, path, e)),
    };
    let len = read_all(&mut file, buf).map_err(|e| report(rt, path, e))?;
    Ok(Some(&buf[..len]))
}
