// Writing a clock's record.
ghost use Rattle.record.specs.Saving.{Saves};

use crate::layout::{NUMBERS, numbers};
use state::{Clock, Refusal, in_range};

// No number has more than five bytes: there is room for every record.
const ROOM: usize = 5 * NUMBERS;

// Writes the record of c into the buffer's first bytes, and gives how many it has; the later ones stay. A
// write that is refused, with `State` or `Room`, leaves all of them.
pub fn write(c: Clock, buf: &mut [u8]) -> Result<usize, Refusal>
    ensures { Saves c buf.old buf.new result }
{
    if !in_range(c) {
        return Err(Refusal::State);
    }
    // Written apart first, in a fixed array, since there is no heap: how many bytes there are is known
    // then, and a refused write leaves the buffer.
    let mut text = [0u8; ROOM];
    let n = number::write_all(&mut text, 0, &numbers(c)).unwrap();
    if buf.len() < n {
        return Err(Refusal::Room);
    }
    buf[..n].copy_from_slice(&text[..n]);
    Ok(n)
}
