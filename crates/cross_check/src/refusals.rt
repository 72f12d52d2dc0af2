// The refusals of documents 01 and 02 that the clocks give, a second time, each with its number there.

#[derive(Clone, Copy, PartialEq, Eq)]
pub(crate) enum Refusal {
    State = 1,
    Time = 2,
    Last = 3,
    Mode = 4,
    Offset = 5,
    Frequency = 6,
    Error = 7,
    Status = 8,
    Constant = 9,
    Ended = 10,
    Form = 11,
    Field = 12,
    Beyond = 13,
    Room = 14,
    Label = 15,
    Ceiling = 16,
    Soon = 17,
}

impl Refusal {
    pub(crate) fn number(self) -> u64 {
        self as u64
    }
}

// The number that an answer gives: 0 stands for accepted.
pub(crate) fn number_of(refusal: Option<Refusal>) -> u64 {
    refusal.map_or(0, |refusal| refusal.number())
}
