// Labels, written and read.
use clock::{Clock, KIND_256, Refusal, fresh};
use workload::Checksum;

// Some thirty days and a few hours: from one label's second to the next one's.
const STEP: u64 = 2654435;

// Seconds alone, where `workload::later` moves the rollovers too.
fn later(c: Clock) -> Clock {
    Clock {
        seconds: ((u64::from(c.seconds) + STEP) % 4294967296) as u32,
        ..c
    }
}

// Of each label two bytes are taken, at places that change with i and meet all twenty: so all must have been
// written.
pub(crate) fn writes(count: u64) -> Checksum {
    let mut c = fresh(KIND_256).clock;
    let mut text = [0u8; 20];
    let mut sum = Checksum(0);
    for i in 0..count {
        c = later(c);
        let refusal = label::write(c, &mut text).map_or_else(Refusal::number, |()| 0);
        let p = (i % 16) as usize;
        sum = sum
            .with(u64::from(refusal))
            .with(u64::from(text[p]))
            .with(u64::from(text[p + 4]));
    }
    sum
}

// 64 labels, one after the other.
fn labels() -> [[u8; 20]; 64] {
    let mut c = fresh(KIND_256).clock;
    let mut texts = [[0u8; 20]; 64];
    for text in &mut texts {
        c = later(c);
        let _ = label::write(c, text);
    }
    texts
}

pub(crate) fn reads(count: u64) -> Checksum {
    let texts = labels();
    let mut sum = Checksum(0);
    for i in 0..count {
        let a = label::read(&texts[(i % 64) as usize]);
        sum = sum.with(u64::from(a.refusal)).with(u64::from(a.seconds));
        if a.sixty {
            sum = sum.with(1);
        }
    }
    sum
}
