// Standard input, read whole.
ghost use Rattle.std.specs.Prelude.{◌≤◌, length};
ghost use Rattle.program.specs.Input.{Took, Whole};

use std::io;
use std::io::Read;

// Reads until the buffer is full, the input ends or a read fails: how many bytes were read, and whether a
// read failed. What was read before that is in the buffer.
pub fn read_full<R: Read>(input: &mut R, buf: &mut [u8]) -> (usize, io::Result<()>)
    ensures within { result.0 ≤ length buf.new }
    ensures bytes { Took (R.remaining input.old) (R.remaining input.new) buf.new result }
    ensures whole { Whole (R.remaining input.new) buf.new result }
{
    // It goes on by what a read gives, and not by one.
    let mut n = 0;
    while n < buf.len() {
        match input.read(&mut buf[n..]) {
            Ok(0) => return (n, Ok(())),
            Ok(more) => n += more,
            Err(error) => return (n, Err(error)),
        }
    }
    (n, Ok(()))
}
