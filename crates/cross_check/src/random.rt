// Pseudo-random and edge values. Every value follows from a case's number and a number for what is drawn, so
// that a case can be run again by its number. Signed values are drawn as the numbers that they are mapped to,
// so that both ends of a range are met.
use crate::devices::{PHASE_MICRO, adjustment_at, farthest, parts, whole_micros};
use crate::form::ROW;
use crate::rules::{State, fresh, times};
use crate::signed::{Signed, pick, up_to};
use std::array;

const SEED: u64 = 20261115;

// A number of 32 bits with its bits mixed: the last step of MurmurHash3.
fn mixed(n: u64) -> u64 {
    let a = (n ^ (n / 65536)) % 4294967296 * 2246822507 % 4294967296;
    let b = (a ^ (a / 8192)) % 4294967296 * 3266489909 % 4294967296;
    (b ^ (b / 65536)) % 4294967296
}

// Below 2^56.
pub(crate) fn draw(case: u64, what: u64) -> u64 {
    let a = mixed(case % 4294967296 + SEED);
    let b = mixed(a % 4294967296 + what % 65536 * 2654435769);
    mixed(b % 4294967296 + 1) % 268435456 * 268435456 + b % 4294967296 / 16
}

// Mostly 0 to `limit`, often near its ends; once in 16 just above it or anything to `far`.
fn near(case: u64, what: u64, limit: u64, far: u64) -> u64 {
    let v = draw(case, what);
    match draw(case, what.saturating_add(500)) % 16 {
        0 if v % 4 < 2 => limit.saturating_add(1 + v % 2),
        0 => up_to(v, far),
        1 => limit.saturating_sub(v % 3),
        2 => up_to(v, limit) % 4096,
        _ => up_to(v, limit),
    }
}

// Any second, or one near midnight, near the last one, or near 0.
pub(crate) fn second(case: u64, what: u64) -> u64 {
    let v = draw(case, what);
    match draw(case, what.saturating_add(500)) % 8 {
        0 => 4294967295 - v % 3,
        1 => v % 3,
        2 | 3 => v % 4294967296,
        _ => (v / 16 % 49711 * 86400 + 2).saturating_sub(v % 5),
    }
}

// A kind, 0 as often as 1; once in 32 a number that is none.
fn kind(case: u64) -> u64 {
    let v = draw(case, 30);
    let n = v / 32;
    if v % 32 != 0 {
        return n % 2;
    }
    match n % 4 {
        0 => 2,
        1 => 3,
        2 => 255,
        _ => 2 + n / 4 % 254,
    }
}

// Any microsecond, or one from which a tick of the kind can roll over or just not.
fn micros(case: u64, kind: u64) -> u64 {
    if draw(case, 4) % 2 == 0 {
        return near(case, 3, 999999, 4294967295);
    }
    let from = 999994_u64.saturating_sub(whole_micros(kind));
    from.saturating_add(draw(case, 5) % 12)
}

// An adjustment in the range of a kind, often near its middle or one of its ends, once in 16 just outside or
// as far again.
fn adjustment_near(case: u64, kind: u64) -> u64 {
    let ends = farthest(kind).saturating_mul(2);
    adjustment_at(kind, near(case, 16, ends, ends.saturating_mul(2)))
}

// Mostly one of the kind; once in 16 one of the other kind, and once in 32 any.
fn adjustment(case: u64, kind: u64) -> u64 {
    let v = draw(case, 19);
    match v % 32 {
        0 => v / 32 % 4294967296,
        1 | 2 => adjustment_near(case, 1_u64.saturating_sub(kind)),
        _ => adjustment_near(case, kind),
    }
}

// What follows the flag of an earlier update, up to `limit`: anything up to it, often near its ends or about
// 64, once in 16 above it; where the flag is 0, 0, and once in 16 1.
pub(crate) fn since(case: u64, flag: u64, limit: u64) -> u64 {
    let v = draw(case, 23);
    let n = v / 16;
    match v % 16 {
        last if flag == 0 => last / 15,
        0 => limit.saturating_add(1 + n % 3),
        1..=3 => limit.saturating_sub(n % 3),
        4 => n % 3,
        5 | 6 => 62 + n % 4,
        _ => up_to(n, limit),
    }
}

// Parts of a phase unit near or outside its ends: a whole unit up or down, or a part less; what is one of
// either kind; the ends of 32 bits and just beyond them; or any number that a record can hold.
pub(crate) fn odd_parts(kind: u64, v: u64) -> u64 {
    let n = v / 8;
    let size = match v % 8 {
        0 | 1 => parts(kind),
        2 => parts(kind).saturating_sub(1),
        3 => 15 + n / 2 % 2,
        4 => 63 + n / 2 % 2,
        5 | 6 => return 4294967297 - n % 4,
        _ => return n % 34359738368,
    };
    Signed::new(n % 2 == 0, size).mapped()
}

// Parts of a phase unit: any within it, often near its ends or 0; once in 32 odd ones, which fit 32 bits.
fn some_parts(case: u64, what: u64, kind: u64) -> u64 {
    let v = draw(case, what);
    let n = v / 32;
    let most = parts(kind).saturating_mul(2).saturating_sub(2);
    match v % 32 {
        0 => odd_parts(kind, n) % 4294967296,
        1..=4 => most.saturating_sub(n % 2),
        5 | 6 => n % 3,
        _ => up_to(n, most),
    }
}

// A clock, about half of them sound.
pub(crate) fn state(case: u64) -> State {
    let kind = kind(case);
    let flag = near(case, 21, 1, 255);
    State {
        seconds: second(case, 1),
        micros: micros(case, kind),
        phase: near(case, 7, 536870910, 4294967295),
        left: near(case, 10, 4194271232, 4294967295),
        frequency: near(case, 13, 3355443200, 4294967295),
        adjustment: adjustment(case, kind),
        constant: near(case, 20, 4, 255),
        flag,
        since: since(case, flag, 1024),
        maximum: near(case, 24, 16000000, 4294967295),
        estimated: near(case, 26, 16000000, 4294967295),
        status: near(case, 28, 4, 255),
        kind,
        remainder: some_parts(case, 31, kind),
        leftover: some_parts(case, 32, kind),
    }
}

// A clock, and how many ticks it is to make.
#[derive(Clone, Copy)]
pub(crate) struct Edge {
    pub(crate) state: State,
    pub(crate) ticks: u64,
}

// How many ticks lead to an edge, mostly one.
fn edge_ticks(v: u64) -> u64 {
    match v % 8 {
        0 => 2,
        1 => 16,
        2 => 100,
        3 => 250,
        _ => 1,
    }
}

// What so many ticks make of an adjustment.
fn made(adjustment: u64, ticks: u64) -> Signed {
    let a = Signed::unmapped(adjustment);
    Signed::new(a.negative, a.size.saturating_mul(ticks))
}

// Whole microseconds, in units of the phase, that are more than any number of ticks here makes.
const MICROS_ABOVE: u64 = 16384 * PHASE_MICRO;

// The phase from which that leads to about a whole microsecond, mostly another one than 0: up to so many
// units as there are ticks before or after it.
fn edge_phase(total: Signed, ticks: u64, v: u64) -> u64 {
    let span = ticks % 512;
    let n = v / 4;
    let above = MICROS_ABOVE.saturating_add(n % (2 * span + 2));
    let end = Signed::new(false, above.saturating_sub(span + 1));
    let up = (end - total).size % PHASE_MICRO;
    let down = PHASE_MICRO.saturating_sub(up) % PHASE_MICRO;
    if total.negative == (v % 4 == 0) {
        Signed::new(false, up).mapped()
    } else {
        Signed::new(true, down).mapped()
    }
}

// The microseconds from which the last of the ticks comes to about the end of a second.
fn edge_micros(kind: u64, total: Signed, ticks: u64, v: u64) -> u64 {
    let carried = total.size / PHASE_MICRO;
    let from = (999998 + v % 4).saturating_sub(times(whole_micros(kind), ticks));
    if total.negative {
        from.saturating_add(carried) % 1000000
    } else {
        from.saturating_sub(carried) % 1000000
    }
}

// A sound clock, half of them in the last second, that so many ticks bring to about the end of a second and
// of a microsecond, and to a whole phase unit that has added up, up or down; or just not.
pub(crate) fn at_edge(case: u64) -> Edge {
    let v = draw(case, 90);
    let kind = v % 2;
    let ticks = edge_ticks(v / 2);
    let ends = farthest(kind).saturating_mul(2);
    let adjustment = adjustment_at(kind, up_to(draw(case, 94), ends));
    let total = made(adjustment, ticks);
    let n = draw(case, 96);
    let some = 1 + if kind == 0 { n / 8 % 15 } else { n / 8 % 63 };
    let rest = parts(kind)
        .saturating_add(n / 2 % 4)
        .saturating_sub(some + 1);
    let most = parts(kind).saturating_sub(1);
    let state = State {
        seconds: pick(v / 16 % 2 == 0, 4294967295, second(case, 91)),
        micros: edge_micros(kind, total, ticks, v / 32),
        phase: edge_phase(total, ticks, draw(case, 95)),
        left: draw(case, 92) % 4194271233,
        frequency: draw(case, 93) % 3355443201,
        adjustment,
        constant: v / 128 % 5,
        status: v / 1024 % 5,
        remainder: Signed::new(n % 2 == 0, rest.min(most)).mapped(),
        leftover: Signed::new(n % 2 == 0, some).mapped(),
        ..fresh(kind)
    };
    Edge { state, ticks }
}

// An argument of 64 bits; once in 64 the largest, which is mapped to -2^63.
fn argument(case: u64, what: u64, limit: u64) -> u64 {
    if draw(case, what.saturating_add(200)) % 64 == 0 {
        return u64::MAX;
    }
    near(case, what, limit, 4611686018427387903)
}

// A row that begins with three numbers; the others are 0.
pub(crate) fn short_row(a: u64, b: u64, c: u64) -> [u64; ROW] {
    let mut row = [0u64; ROW];
    row[0] = a;
    row[1] = b;
    row[2] = c;
    row
}

// A request: its mode, then the fields in order of mode bit, offset and frequency mapped.
fn request_row(case: u64) -> [u64; ROW] {
    let mut row = short_row(2, argument(case, 41, 63), argument(case, 44, 255998));
    row[3] = argument(case, 47, 3355443198);
    row[4] = argument(case, 49, 16000000);
    row[5] = argument(case, 51, 16000000);
    row[6] = argument(case, 53, 4);
    row[7] = argument(case, 55, 4);
    row
}

// A setting: its seconds are once in 16 too large by 2^32.
fn setting_row(case: u64) -> [u64; ROW] {
    let above = pick(draw(case, 73) % 16 == 0, 4294967296, 0);
    let seconds = second(case, 70).saturating_add(above);
    short_row(1, seconds, argument(case, 76, 999999))
}

// A catch-up: its ceiling, and 1 where it stops after the tick that rolls the second over.
pub(crate) fn catch_up_row(ceiling: u64, stop: u64) -> [u64; ROW] {
    short_row(4, ceiling, stop)
}

// 0 to 2, about a second of ticks of either kind, about the greatest ceiling, above it, or up to some 2.7
// seconds of either kind.
fn ceiling(case: u64) -> u64 {
    let v = draw(case, 86);
    match draw(case, 87) % 16 {
        0 | 1 => v % 3,
        2 | 3 => 255 + v % 4,
        4 | 5 => 1023 + v % 4,
        6 => 65535 + v % 3,
        7 if v % 2 == 0 => u64::MAX,
        7 => 65537 + v / 2,
        8 | 9 => v % 2801,
        _ => v % 701,
    }
}

// Of the ceilings that are not refused those above 2,800 stop, since the second implementation makes their
// ticks one by one.
fn some_catch_up_row(case: u64) -> [u64; ROW] {
    let n = ceiling(case);
    let many = 2800 < n && n <= 65536;
    catch_up_row(n, pick(many, 1, draw(case, 88) % 2))
}

// An event of the code, a number and no enum, since one that is none is drawn too: its numbers as they stand
// in a history. Code 4 is a catch-up of a list; in a history
// it stands alone, and asks for the summary.
pub(crate) fn row(case: u64, code: u64) -> [u64; ROW] {
    match code {
        1 => setting_row(case),
        2 => request_row(case),
        4 => some_catch_up_row(case),
        _ => short_row(code, 0, 0),
    }
}

// Bytes: any, or many of them 0, 127, 128 or 255, or many with the top bit.
pub(crate) fn some_bytes(case: u64) -> [u8; 64] {
    let kind = draw(case, 300) % 4;
    array::from_fn(|k| {
        let v = draw(case, 310 + k as u64 % 64);
        some_byte(pick(v % 2 == 0, 0, kind), v / 2)
    })
}

fn some_byte(kind: u64, v: u64) -> u8 {
    match kind {
        2 => (v % 2 * 128 + v / 2 % 2 * 127) as u8,
        3 => (v % 128 + 128) as u8,
        _ => (v % 256) as u8,
    }
}

// Drawn bytes, of which the first `end` are lent, counted from 0 again where numbers were written beyond the
// last. A fixed array, since no program here has a heap.
#[derive(Clone, Copy)]
pub(crate) struct Bytes {
    bytes: [u8; 64],
    end: usize,
}

impl Bytes {
    pub(crate) fn new(bytes: [u8; 64], end: usize) -> Self {
        Bytes { bytes, end }
    }

    pub(crate) fn lent(&self) -> &[u8] {
        &self.bytes[..self.end % 65]
    }

    // The bytes as they are, or with one changed, or with the end elsewhere.
    pub(crate) fn damaged(self, case: u64) -> Self {
        let v = draw(case, 290);
        let k = (v / 16 % 64) as usize;
        let mut b = self;
        match v % 8 {
            0 | 1 => b.bytes[k] = some_byte(v % 2 * 2, v / 1024),
            2 => b.bytes[k] = b.bytes[k] % 128 + 128,
            3 => b.end = k + 1,
            4 => b.end = b.end % 64 + 1,
            _ => (),
        }
        b
    }
}
