// A line that was put together is written out (document 01, refusals 9 and 10).
ghost use Rattle.line.specs.Output.{Wrote};

// Why no line was written: what was given is out of range, or the output is too short for the line.
#[derive(Clone, Copy, Debug, PartialEq, Eq)]
pub enum WriteError {
    OutOfRange,
    TooShort,
}

// Copies the bytes to the front of the output, if there is room for all; how many they are.
pub(crate) fn copy_out(bytes: &[u8], out: &mut [u8]) -> Result<usize, WriteError>
    ensures { Wrote bytes.now out.old out.new result }
{
    let n = bytes.len();
    if out.len() < n {
        return Err(WriteError::TooShort);
    }
    out[..n].copy_from_slice(bytes);
    Ok(n)
}
