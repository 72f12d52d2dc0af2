// Records, written and read.
use crate::clocks::after_requests;
use clock::{Clock, KIND_256, Micros, PhaseUnits, Refusal, fresh};
use workload::{Checksum, Values};

// The clock at another time of its second.
fn moved(c: Clock, values: &Values, k: u64) -> Clock {
    Clock {
        micros: Micros(values.small(k) * 15000),
        phase: PhaseUnits((values.small(k) * 4000000) as i32),
        ..c
    }
}

// 64 clocks after more and more requests.
fn clocks(values: &Values) -> [Clock; 64] {
    let mut all = [fresh(KIND_256).clock; 64];
    for i in 0..64 {
        let k = i as u64;
        let (_, c) = after_requests(values, 97 * k);
        all[i] = moved(c, values, k);
    }
    all
}

// The refusal, 0 where there is none, and the length.
fn with_saved(sum: Checksum, saved: Result<usize, Refusal>) -> Checksum {
    match saved {
        Ok(length) => sum.with(0).with(length as u64),
        Err(refusal) => sum.with(u64::from(refusal.number())).with(0),
    }
}

// Of each record two bytes are taken, at places that change with i and meet all of them: so all must have
// been written.
pub(crate) fn writes(values: &Values, count: u64) -> Checksum {
    let all = clocks(values);
    let mut buf = [0u8; 46];
    let mut sum = Checksum(0);
    for i in 0..count {
        let saved = record::write(all[(i % 64) as usize], &mut buf);
        let p = (i % 23) as usize;
        sum = with_saved(sum, saved)
            .with(u64::from(buf[p]))
            .with(u64::from(buf[p + 23]));
    }
    sum
}

// A record, and its length, in a fixed array, since no program here has a heap.
#[derive(Clone, Copy)]
struct Record {
    bytes: [u8; 64],
    length: usize,
}

// 64 records, 64 bytes apart.
fn records(values: &Values) -> [Record; 64] {
    let mut all = [Record {
        bytes: [0; 64],
        length: 0,
    }; 64];
    for (record, c) in all.iter_mut().zip(clocks(values)) {
        record.length = record::write(c, &mut record.bytes).unwrap_or(0);
    }
    all
}

pub(crate) fn reads(values: &Values, count: u64) -> Checksum {
    let all = records(values);
    let mut sum = Checksum(0);
    for i in 0..count {
        let r = &all[(i % 64) as usize];
        let restored = record::read(&r.bytes[..r.length % 64]);
        sum = sum
            .with(u64::from(restored.refusal))
            .with_clock(restored.clock);
    }
    sum
}
