// Document 01's number form, a second time: a number's end is found first, then its value is worked out from
// the last group to the first. Rows of numbers, as records and events have them, are written and read by a
// mask: bit k says that number k is there. A mask and no struct of options: which numbers are there follows
// from numbers of the row itself, its version or its mode.
use crate::refusals::Refusal;

// How many numbers a row has: as many as the longest record. An event has fewer.
pub(crate) const ROW: usize = 16;

#[derive(Clone, Copy)]
pub(crate) struct Number {
    pub(crate) value: u64,
    pub(crate) size: usize,
}

// The number at `at`, of at most five bytes.
pub(crate) fn read(bytes: &[u8], at: usize) -> Result<Number, Refusal> {
    let rest = bytes.get(at..).unwrap_or(&[]);
    let Some(last) = rest.iter().take(5).position(|b| *b < 128) else {
        return Err(if rest.len() < 5 {
            Refusal::Ended
        } else {
            Refusal::Form
        });
    };
    if 0 < last && rest[last] == 0 {
        return Err(Refusal::Form);
    }
    Ok(Number {
        value: value_of(&rest[..=last]),
        size: last + 1,
    })
}

// The value of at most five bytes.
fn value_of(text: &[u8]) -> u64 {
    text.iter().rev().fold(0, |value, b| {
        value % 1099511627776 * 128 + u64::from(*b % 128)
    })
}

// Reads rows of numbers: where the next number begins, and how many numbers of rows were passed.
#[derive(Drop)]
pub(crate) struct Reader<'a> {
    bytes: &'a [u8],
    pub(crate) next: usize,
    pub(crate) passed: usize,
}

impl<'a> Reader<'a> {
    pub(crate) fn new(bytes: &'a [u8], at: usize) -> Self {
        Reader {
            bytes,
            next: at,
            passed: 0,
        }
    }

    // The numbers that the mask names, put into the row, up to one that is refused.
    pub(crate) fn take(&mut self, mask: u64, row: &mut [u64; ROW]) -> Result<(), Refusal> {
        let mut rest = mask;
        for n in row.iter_mut() {
            if rest % 2 == 1 {
                let number = read(self.bytes, self.next)?;
                *n = number.value;
                self.next = self.next.saturating_add(number.size);
            }
            rest /= 2;
            self.passed = self.passed.saturating_add(1);
        }
        Ok(())
    }
}

// Bytes that numbers are written into, and the place after the last of them, which may lie behind their
// end. A fixed array, since no program here has a heap.
#[derive(Clone, Copy)]
pub(crate) struct Draft {
    pub(crate) text: [u8; 64],
    pub(crate) next: usize,
}

impl Draft {
    // Bytes that hold `fill`, to be written from `at` on.
    pub(crate) fn new(fill: u8, at: usize) -> Self {
        Draft {
            text: [fill; 64],
            next: at,
        }
    }

    fn put_byte(&mut self, b: u8) {
        if let Some(place) = self.text.get_mut(self.next) {
            *place = b;
        }
        self.next = self.next.saturating_add(1);
    }

    // Writes n modulo 2^35, as far as the bytes reach.
    pub(crate) fn put(&mut self, n: u64) {
        let mut rest = n % 34359738368;
        while 127 < rest {
            self.put_byte((rest % 128 + 128) as u8);
            rest /= 128;
        }
        self.put_byte(rest as u8);
    }

    // Writes the numbers of the row that the mask names.
    pub(crate) fn put_row(&mut self, row: &[u64; ROW], mask: u64) {
        let mut rest = mask;
        for n in row {
            if rest % 2 == 1 {
                self.put(*n);
            }
            rest /= 2;
        }
    }
}

// Whether a lent buffer begins with the text, and holds `fill` after it, as it did before.
pub(crate) fn stands(buf: &[u8; 64], text: &[u8], fill: u8) -> bool {
    buf.strip_prefix(text)
        .is_some_and(|rest| rest.iter().all(|b| *b == fill))
}
