// Many ticks in one call, a second time: one tick after the other.
use crate::form::ROW;
use crate::refusals::Refusal;
use crate::rules::{State, reading, step, tick};

// What an event came to that was not refused: how many ticks it made, the refusal of the tick that ended
// them, and the clock. Of a single call the first is 0 and the second none.
#[derive(Clone, Copy)]
pub(crate) struct Ran {
    pub(crate) count: u64,
    pub(crate) ended: Option<Refusal>,
    pub(crate) state: State,
}

// A single call that leaves this clock.
impl From<State> for Ran {
    fn from(state: State) -> Self {
        Ran {
            count: 0,
            ended: None,
            state,
        }
    }
}

// The answer of an event: a refusal leaves the clock as it was.
pub(crate) type Answer = Result<Ran, Refusal>;

pub(crate) fn state_after(s: State, m: Answer) -> State {
    m.map_or(s, |ran| ran.state)
}

// The refusal of a call, else of the tick that ended it.
pub(crate) fn refusal_of(m: Answer) -> Option<Refusal> {
    match m {
        Ok(ran) => ran.ended,
        Err(refusal) => Some(refusal),
    }
}

// Up to n ticks of a sound clock, to the first that is refused; where `stop`, to the one that rolls the
// second over: only there the microseconds fall.
fn ticked(s: State, n: u64, stop: bool) -> Ran {
    let mut state = s;
    for count in 0..n {
        let next = match tick(state) {
            Ok(next) => next,
            Err(refusal) => {
                return Ran {
                    count,
                    ended: Some(refusal),
                    state,
                };
            }
        };
        let rolls = next.micros < state.micros;
        state = next;
        if stop && rolls {
            return Ran {
                count: count + 1,
                ended: None,
                state,
            };
        }
    }
    Ran {
        count: n,
        ended: None,
        state,
    }
}

fn catch_up(s: State, ceiling: u64, stop: bool) -> Answer {
    reading(s)?;
    if 65536 < ceiling {
        return Err(Refusal::Ceiling);
    }
    Ok(ticked(s, ceiling, stop))
}

// An event on a clock: code 4 a catch-up, with its ceiling and whether it stops, else a single call.
pub(crate) fn event(s: State, row: &[u64; ROW]) -> Answer {
    if row[0] == 4 {
        return catch_up(s, row[1], row[2] == 1);
    }
    step(s, row).map(Ran::from)
}

// Up to n ticks as an event of a history.
pub(crate) fn ticks(s: State, n: u64) -> Answer {
    reading(s)?;
    Ok(ticked(s, n, false))
}
