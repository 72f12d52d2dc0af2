// A run of ticks, by turns: each goes in one step as far as the second is sure to last, and by the tick after
// it.
ghost use Rattle.std.specs.Prelude.{◌≡◌, ℕ, ◌≤◌, ◌<◌};
ghost use Rattle.state.specs.State.{last_second};
ghost use Rattle.state.specs.Refusal.{refusal_number};
ghost use Rattle.clock.specs.Ticks.{ran_of, refused_catch_up};
ghost use Rattle.clock.specs.Inner.{ran, TurnOf};

use crate::jump::Jump;
use crate::sound::Sound;
use state::{Clock, LAST_SECOND, MICROS_PER_SECOND, Refusal};

// The answer of many ticks: refusal 0 where the call was accepted, else its number in the table of refusals;
// how many ticks were accepted; the refusal of the tick that ended them, or 0; and the clock after the
// accepted ones. C reads it by value, so that its refusals are numbers, and it is no Result.
#[repr(C)]
#[derive(Clone, Copy, Debug, PartialEq, Eq)]
pub struct CaughtUp {
    pub refusal: u8,
    pub count: u64,
    pub tick_refusal: u8,
    pub clock: Clock,
}

impl CaughtUp {
    // Of a call that is refused, with the clock that it hands back.
    pub(crate) fn refused(clock: Clock, refusal: Refusal) -> Self
        ensures { result ≡ refused_catch_up (refusal_number refusal) clock }
    {
        CaughtUp {
            refusal: refusal.number(),
            count: 0,
            tick_refusal: 0,
            clock,
        }
    }

    // Of so many accepted ticks, and the refusal of the one after them, or 0.
    fn ran(count: u64, tick_refusal: u8, clock: Clock) -> Self
        ensures { result ≡ ran count tick_refusal clock }
    {
        CaughtUp {
            refusal: 0,
            count,
            tick_refusal,
            clock,
        }
    }
}

// How a turn ends.
#[derive(Clone, Copy)]
enum End {
    // within the second that it began in
    Within,
    // with the tick that rolls the second over
    Rolled,
    // before a tick that is refused
    Refused(Refusal),
}

// Some ticks of a run: how many were accepted, and the clock after them.
#[derive(Clone, Copy)]
struct Turn {
    end: End,
    count: u64,
    clock: Sound,
}

// A turn in the last second of all: where the last of its ticks would roll over, that one is refused.
fn last_turn(jump: Jump) -> Turn
    requires last { jump.from.clock.seconds ≡ last_second }
    requires some { 0 < jump.ticks }
    ensures { (n : ℕ) → jump.ticks ≤ n → TurnOf n jump.from.clock result.end result.count result.clock.clock }
{
    let a = jump.advance();
    if a.micros.0 < MICROS_PER_SECOND {
        return Turn {
            end: End::Within,
            count: jump.ticks,
            clock: jump.from.at(a),
        };
    }
    let before = jump.less_a_tick();
    Turn {
        end: End::Refused(Refusal::Last),
        count: before.ticks,
        clock: before.from.at(before.advance()),
    }
}

// The first of up to `most` ticks, none after one that rolls over. The last second is seen before the ticks
// are made: the clock as it was need not be kept beyond them, which would take an instruction in ten more.
fn take_turn(s: Sound, most: u64) -> Turn
    requires { 0 < most }
    ensures { TurnOf most s.clock result.end result.count result.clock.clock }
{
    let jump = Jump::of(s, most);
    if s.clock.seconds == LAST_SECOND {
        return last_turn(jump);
    }
    let a = jump.advance();
    if a.micros.0 < MICROS_PER_SECOND {
        return Turn {
            end: End::Within,
            count: jump.ticks,
            clock: s.at(a),
        };
    }
    Turn {
        end: End::Rolled,
        count: jump.ticks,
        clock: s.at(a.less_a_second()).rollover(),
    }
}

// Up to n ticks, to the first that is refused; where `stop`, to the tick that rolls the second over. What is
// left falls by what a turn has made, so that no range counts it.
pub(crate) fn run(s: Sound, n: u64, stop: bool) -> CaughtUp
    ensures { result ≡ ran_of stop n s.clock }
{
    let mut now = s;
    let mut left = n;
    while 0 < left {
        let turn = take_turn(now, left);
        now = turn.clock;
        left -= turn.count;
        match turn.end {
            End::Refused(why) => return CaughtUp::ran(n - left, why.number(), now.clock),
            End::Rolled if stop => return CaughtUp::ran(n - left, 0, now.clock),
            _ => {}
        }
    }
    CaughtUp::ran(n, 0, now.clock)
}
