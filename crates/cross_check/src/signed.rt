// Arithmetic of the second implementation: whole numbers in 64 bits, and signed ones as a sign and a size, so
// that every quotient drops its fraction towards zero with no rule for negative numbers. Every size that
// document 01 reaches lies far below 2^62, so that no sum saturates.
use std::ops::{Add, Neg, Sub};

// Zero may have either sign: `mapped` tells them apart no more.
#[derive(Clone, Copy)]
pub(crate) struct Signed {
    pub(crate) negative: bool,
    pub(crate) size: u64,
}

impl Signed {
    pub(crate) fn new(negative: bool, size: u64) -> Self {
        Signed { negative, size }
    }

    // v >= 0 to 2v, v < 0 to -2v - 1.
    pub(crate) fn mapped(self) -> u64 {
        let twice = self.size.saturating_add(self.size);
        twice.saturating_sub(u64::from(self.negative))
    }

    // What a number of `mapped` stands for.
    pub(crate) fn unmapped(n: u64) -> Self {
        Signed {
            negative: n % 2 == 1,
            size: n / 2 + n % 2,
        }
    }
}

impl Neg for Signed {
    type Output = Self;

    fn neg(self) -> Self {
        Signed::new(!self.negative, self.size)
    }
}

impl Add for Signed {
    type Output = Self;

    // What cancels out is 0 with the sign of a number that is not negative.
    fn add(self, other: Self) -> Self {
        if self.negative == other.negative {
            return Signed::new(self.negative, self.size.saturating_add(other.size));
        }
        let first = self.negative && other.size < self.size;
        let second = other.negative && self.size < other.size;
        Signed::new(first || second, self.size.abs_diff(other.size))
    }
}

impl Sub for Signed {
    type Output = Self;

    fn sub(self, other: Self) -> Self {
        self + -other
    }
}

// One of two numbers that are both at hand. A function and no `if`: most stand inside an expression.
pub(crate) fn pick(first: bool, a: u64, b: u64) -> u64 {
    if first { a } else { b }
}

// `a` divided by 2^n, n at most 4.
pub(crate) fn halved(a: u64, n: u64) -> u64 {
    a >> n.min(4)
}

// v brought to 0 to `most`.
pub(crate) fn up_to(v: u64, most: u64) -> u64 {
    match most.checked_add(1) {
        Some(numbers) => v % numbers,
        None => v,
    }
}
