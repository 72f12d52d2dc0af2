ghost use Rattle.std.specs.Prelude.{◌≡◌, ◌^◌, ◌≤◌};

use number::unmap;
use request::{AskedFrequency, AskedOffset, Request};
use state::{AskedMicros, Clock, Frequency, Micros, OffsetUnits, PhaseParts, PhaseUnits};

// What the operations work on, taken from memory as the program runs: so the compiler cannot know what is in
// range.
#[derive(Clone, Copy)]
pub struct Values {
    numbers: [u64; 64],
}

impl Values {
    ghost use Rattle.workload.specs.Values.{CountFrom, value_at, small_at, times_at, difference_at, clock_of, request_at};

    // The numbers from 0 on, for a line of ASCII: the first is taken from the line, so that the compiler
    // cannot work them out.
    pub fn of(line: &[u8]) -> Values
        ensures { CountFrom line.now result }
    {
        let first = line.first().map_or(0, |b| u64::from(*b / 128));
        let mut numbers = [0u64; 64];
        for i in 0..64 {
            numbers[i] = first + i as u64;
        }
        Values { numbers }
    }

    fn at(&self, i: u64) -> u64
        ensures { result ≡ value_at self.now i }
    {
        self.numbers[(i % 64) as usize]
    }

    // One of them, below 64.
    pub fn small(&self, i: u64) -> u32
        ensures { result ≡ small_at self.now i }
    {
        (self.at(i) % 64) as u32
    }

    // So many times one of them.
    fn times(&self, i: u64, factor: u32) -> i32
        requires { factor ≤ 2 ^ 25 }
        ensures { result ≡ times_at self.now i factor }
    {
        (self.small(i) * factor) as i32
    }

    // A number of a sign that the compiler cannot know.
    fn difference(&self, i: u64, k: u64) -> i32
        ensures { result ≡ difference_at self.now i k }
    {
        self.small(i) as i32 - self.small(k) as i32
    }

    fn byte(&self, i: u64) -> u8
        ensures { result ≡ small_at self.now i }
    {
        self.small(i) as u8
    }

    // A clock of a kind with work to do: an offset of 1,000 us to pay off, a frequency that leaves a
    // remainder at both kinds, and time constant 2. Its adjustment lies in the ranges of both kinds.
    pub fn clock(&self, kind: u8) -> Clock
        ensures { result ≡ clock_of self.now kind }
    {
        let micros = Micros(self.small(0));
        let phase = PhaseUnits(self.times(0, 1));
        let offset = OffsetUnits(self.times(10, 1638400));
        let frequency = Frequency(self.times(12, 10289));
        let adjustment = PhaseUnits(self.times(40, 3355443));
        let error = Micros(self.small(16) * 1000000);
        Clock {
            seconds: self.small(43) * 2000,
            micros,
            phase,
            offset,
            frequency,
            adjustment,
            constant: self.byte(2),
            updated: self.byte(1),
            interval: self.small(0),
            maxerror: error,
            esterror: error,
            status: self.byte(0),
            kind: self.byte(u64::from(kind)),
            remainder: PhaseParts(self.difference(5, 9)),
            leftover: PhaseParts(self.difference(3, 7)),
        }
    }

    // The i-th request: every choice of fields in turn.
    pub fn request(&self, i: u64) -> Request
        ensures { result ≡ request_at self.now i }
    {
        let k = i / 64;
        let offset = AskedOffset(unmap(self.at(k)));
        let frequency = AskedFrequency(unmap(self.at(k / 2)));
        Request {
            mode: self.at(i),
            offset,
            frequency,
            maxerror: AskedMicros(self.at(k / 3)),
            esterror: AskedMicros(self.at(k / 4)),
            status: self.at(k % 4),
            constant: self.at(k % 5),
        }
    }
}
