// Numbers, read, and written and read back.
use clock::Refusal;
use number::Number;
use workload::Checksum;

// The value and the place after it, or the refusal and no place.
fn parts_of(read: Result<Number, Refusal>) -> (u64, usize) {
    match read {
        Ok(Number { value, next }) => (value, next),
        Err(refusal) => (u64::from(refusal.number()), 0),
    }
}

// Numbers from `least` on: it says in how many bytes they are written. All that was answered is mixed in one
// step: a step for each takes longer than a short number does.
pub(crate) fn round_trips(least: u32, count: u64) -> Checksum {
    let mut buf = [0u8; 8];
    let mut sum = Checksum(0);
    for i in 0..count {
        let n = ((u64::from(least) + i % 128) % 4294967296) as u32;
        let written = number::write(&mut buf, 0, n).unwrap_or(0);
        let (value, next) = parts_of(number::read(&buf, 0));
        let places = written as u64 % 256 + next as u64 % 256;
        sum = sum.with(value % 4294967296 + places);
    }
    sum
}

// Writes 128 numbers from `least` on, one after the other, and gives the place after them.
fn fill(buf: &mut [u8], least: u32) -> usize {
    let mut at = 0;
    for i in 0..128 {
        let n = ((u64::from(least) + i) % 4294967296) as u32;
        at = number::write(buf, at, n).unwrap_or(0);
    }
    at
}

// Reads 128 numbers from `least` on one after the other, again and again: after the last comes the first.
pub(crate) fn reads(least: u32, count: u64) -> Checksum {
    let mut buf = [0u8; 640];
    let end = fill(&mut buf, least);
    let mut sum = Checksum(0);
    let mut at = 0;
    for _ in 0..count {
        let (value, next) = parts_of(number::read(&buf, at));
        sum = sum.with(value);
        at = if next < end { next } else { 0 };
    }
    sum
}
