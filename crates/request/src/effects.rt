// What a request that is not refused does to its clock.
ghost use Rattle.std.specs.Prelude.{◌≡◌, MatchResult};
ghost use Rattle.state.specs.Units.{frequency_units};
ghost use Rattle.state.specs.Refusal.{refusal_number};
ghost use Rattle.request.specs.Request.{request_refusal, frequency_written, maxerror_written, esterror_written, constant_written, status_written, status_after, requested};

use crate::gain::{clamped_sum, gain_of};
use crate::refusal::judged;
use crate::request::{
    ADJ_ESTERROR, ADJ_FREQUENCY, ADJ_MAXERROR, ADJ_OFFSET, ADJ_STATUS, ADJ_TIMECONST, Request,
};
use state::{Clock, Frequency, Micros, OFFSET_PER_MICRO, OffsetUnits, Refusal, TIME_BAD, TIME_OK};

// The status BAD as a request asks for it.
const BAD: u64 = TIME_BAD as u64;

// A request that its clock does not refuse. Only `Granted::new` makes one, so that the effects need no test.
#[derive(Clone, Copy)]
pub(crate) struct Granted {
    clock: Clock,
    request: Request,
    ghost not_refused: { request_refusal clock request ≡ 0 },
}

impl Granted {
    pub(crate) fn new(clock: Clock, request: Request) -> Result<Self, Refusal>
        ensures { MatchResult result (λ g. (g.clock ≡ clock) × (g.request ≡ request))
            (λ refusal. refusal_number refusal ≡ request_refusal clock request) }
    {
        judged(clock, request)?;
        Ok(Granted { clock, request })
    }

    fn frequency_written(self) -> Frequency
        ensures { result ≡ frequency_units (frequency_written self.clock self.request) }
    {
        match self.request.selected(ADJ_FREQUENCY, self.request.frequency) {
            Some(f) => Frequency(f.0 as i32),
            None => self.clock.frequency,
        }
    }

    // The two errors have a method each: one of both would have to ask, by a `requires`, for what
    // `not_refused` says of each.
    fn maxerror_written(self) -> Micros
        ensures { result ≡ maxerror_written self.clock self.request }
    {
        let asked = self.request.selected(ADJ_MAXERROR, self.request.maxerror);
        asked.map_or(self.clock.maxerror, |us| Micros(us.0 as u32))
    }

    fn esterror_written(self) -> Micros
        ensures { result ≡ esterror_written self.clock self.request }
    {
        let asked = self.request.selected(ADJ_ESTERROR, self.request.esterror);
        asked.map_or(self.clock.esterror, |us| Micros(us.0 as u32))
    }

    fn status_written(self) -> u8
        ensures { result ≡ status_written self.clock self.request }
    {
        match self.request.selected(ADJ_STATUS, self.request.status) {
            Some(status) if (self.clock.status == TIME_OK) | (status == BAD) => status as u8,
            _ => self.clock.status,
        }
    }

    fn constant_written(self) -> u8
        ensures { result ≡ constant_written self.clock self.request }
    {
        let asked = self.request.selected(ADJ_TIMECONST, self.request.constant);
        asked.map_or(self.clock.constant, |constant| constant as u8)
    }

    fn status_after(self) -> u8
        ensures { result ≡ status_after self.clock self.request }
    {
        let s = self.status_written();
        let bad = self.request.selects(ADJ_STATUS) & (self.request.status == BAD);
        if self.request.selects(ADJ_OFFSET) & (s == TIME_BAD) & !bad {
            return TIME_OK;
        }
        s
    }

    // The clock with every effect of the request: of an offset last, since its gain takes the frequency and
    // the time constant that the request wrote. All that an offset moves stands behind one test of its bit:
    // with a test for each, a request took 7 to 10 instructions in 100 more.
    pub(crate) fn requested(self) -> Clock
        ensures { result ≡ requested self.clock self.request }
    {
        let written = Clock {
            frequency: self.frequency_written(),
            constant: self.constant_written(),
            maxerror: self.maxerror_written(),
            esterror: self.esterror_written(),
            status: self.status_after(),
            ..self.clock
        };
        let Some(offset) = self.request.selected(ADJ_OFFSET, self.request.offset) else {
            return written;
        };
        let gain = gain_of(offset, written.interval, written.constant);
        Clock {
            offset: OffsetUnits(offset.0 as i32 * OFFSET_PER_MICRO),
            frequency: clamped_sum(written.frequency, gain),
            updated: 1,
            interval: 0,
            ..written
        }
    }
}
