// What is refused of a request, and with which number.
ghost use Rattle.std.specs.Prelude.{◌≡◌, ◌<◌, ◌&&◌, ltb};
ghost use Rattle.std.specs.Bool.{then_some};
ghost use Rattle.state.specs.Refusal.{refusal_of};
ghost use Rattle.request.specs.Request.{bit_set, offset_outside, frequency_outside, offset_too_soon, request_refusal};

use crate::limits::{
    FREQUENCY_LOWER_END, FREQUENCY_UPPER_END, MAX_CONSTANT, MAX_ERROR, MAX_MODE, MAX_OFFSET,
    MAX_STATUS, MIN_OFFSET,
};
use crate::request::{
    ADJ_ESTERROR, ADJ_FREQUENCY, ADJ_MAXERROR, ADJ_OFFSET, ADJ_STATUS, ADJ_TIMECONST, MIN_INTERVAL,
    Request,
};
use state::{Clock, Refusal, in_range};

impl Request {
    // The bit is one of ADJ_.., which are numbers, since C adds them up.
    pub(crate) fn selects(self, bit: u64) -> bool
        requires { 0 < bit }
        ensures { result ≡ bit_set self.mode bit }
    {
        self.mode / bit % 2 == 1
    }

    // A field of the request, where its bit selects it.
    pub(crate) fn selected<T: Drop>(self, bit: u64, field: T) -> Option<T>
        requires { 0 < bit }
        ensures { result ≡ then_some (bit_set self.mode bit) field }
    {
        self.selects(bit).then_some(field)
    }

    fn offset_outside(self) -> bool
        ensures { result ≡ offset_outside self }
    {
        self.selects(ADJ_OFFSET) & !((MIN_OFFSET <= self.offset.0) & (self.offset.0 <= MAX_OFFSET))
    }

    fn frequency_outside(self) -> bool
        ensures { result ≡ frequency_outside self }
    {
        self.selects(ADJ_FREQUENCY)
            & !((FREQUENCY_LOWER_END < self.frequency.0) & (self.frequency.0 < FREQUENCY_UPPER_END))
    }

    // An error, a status or a time constant.
    fn above(self, bit: u64, field: u64, most: u64) -> bool
        requires { 0 < bit }
        ensures { result ≡ bit_set self.mode bit && ltb most field }
    {
        self.selects(bit) & (most < field)
    }
}

// The count stops far above the least, so that it tells fewer rollovers as they were. It is judged first:
// with the mode's bit before it a replay of ticks took 3 in 100 more instructions.
fn offset_too_soon(c: Clock, r: Request) -> bool
    ensures { result ≡ offset_too_soon c r }
{
    if MIN_INTERVAL <= c.interval {
        return false;
    }
    r.selects(ADJ_OFFSET) & (c.updated == 1)
}

// The lowest refusal that applies.
#[tactic(auto, using(std::proofs::lemmas::Bool::Decides::nat_tests), unfolding(crate::specs::Request::request_refusal))]
pub(crate) fn judged(c: Clock, r: Request) -> Result<(), Refusal>
    ensures { refusal_of result ≡ request_refusal c r }
{
    if !in_range(c) {
        return Err(Refusal::State);
    }
    if MAX_MODE < r.mode {
        return Err(Refusal::Mode);
    }
    if r.offset_outside() {
        return Err(Refusal::Offset);
    }
    if r.frequency_outside() {
        return Err(Refusal::Frequency);
    }
    if r.above(ADJ_MAXERROR, r.maxerror.0, MAX_ERROR) {
        return Err(Refusal::Error);
    }
    if r.above(ADJ_ESTERROR, r.esterror.0, MAX_ERROR) {
        return Err(Refusal::Error);
    }
    if r.above(ADJ_STATUS, r.status, MAX_STATUS) {
        return Err(Refusal::Status);
    }
    if r.above(ADJ_TIMECONST, r.constant, MAX_CONSTANT) {
        return Err(Refusal::Constant);
    }
    if offset_too_soon(c, r) {
        return Err(Refusal::Soon);
    }
    Ok(())
}
