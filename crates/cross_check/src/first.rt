// The first implementation's calls, each beside what the second answers. No other file names the first's
// crates.
use crate::dates::Label;
use crate::devices::{adjustment_at, end_of, parts, rate, slew, whole_micros};
use crate::form::{Number, ROW, stands};
use crate::many::{Answer, Ran, refusal_of};
use crate::quarters::{QUARTERS, Quarter, Taken, afresh};
use crate::refusals::{Refusal, number_of};
use crate::replay::{Mark, Output, Replayed, STEPS, caught_up};
use crate::rules::{Shown, State, fresh, reading, shown_by};
use crate::signed::{Signed, pick};
use clock::{
    AskedMicros, CaughtUp, Clock, Device, Frequency, Micros, OffsetUnits, Outcome, PhaseParts,
    PhaseUnits, Reading,
};
use event::{Call, Event, Stepped};
use playback::{Filling, Run};
use request::{AskedFrequency, AskedOffset, Request};
use summary::Summary;

fn byte(n: u64) -> u8 {
    (n % 256) as u8
}

fn word(n: u64) -> u32 {
    (n % 4294967296) as u32
}

// The value that n stands for.
fn to_i64(n: u64) -> i64 {
    let half = (n / 2) as i64;
    if n % 2 == 0 { half } else { -1 - half }
}

// The value that n, below 2^32, stands for.
fn to_i32(n: u64) -> i32 {
    i32::try_from(to_i64(n)).unwrap_or(0)
}

// The number that stands for v.
fn mapped(v: i32) -> u64 {
    Signed::new(v < 0, u64::from(v.unsigned_abs())).mapped()
}

// The clock of a state, by a function and no `From`: it is right only of fields that fit, as every field that
// is drawn or worked out does.
fn clock_of(s: State) -> Clock {
    Clock {
        seconds: word(s.seconds),
        micros: Micros(word(s.micros)),
        phase: PhaseUnits(to_i32(s.phase)),
        offset: OffsetUnits(to_i32(s.left)),
        frequency: Frequency(to_i32(s.frequency)),
        adjustment: PhaseUnits(to_i32(s.adjustment)),
        constant: byte(s.constant),
        updated: byte(s.flag),
        interval: word(s.since),
        maxerror: Micros(word(s.maximum)),
        esterror: Micros(word(s.estimated)),
        status: byte(s.status),
        kind: byte(s.kind),
        remainder: PhaseParts(to_i32(s.remainder)),
        leftover: PhaseParts(to_i32(s.leftover)),
    }
}

// Every field to its last bit.
impl From<Clock> for State {
    fn from(c: Clock) -> Self {
        State {
            seconds: u64::from(c.seconds),
            micros: u64::from(c.micros.0),
            phase: mapped(c.phase.0),
            left: mapped(c.offset.0),
            frequency: mapped(c.frequency.0),
            adjustment: mapped(c.adjustment.0),
            constant: u64::from(c.constant),
            flag: u64::from(c.updated),
            since: u64::from(c.interval),
            maximum: u64::from(c.maxerror.0),
            estimated: u64::from(c.esterror.0),
            status: u64::from(c.status),
            kind: u64::from(c.kind),
            remainder: mapped(c.remainder.0),
            leftover: mapped(c.leftover.0),
        }
    }
}

impl From<Reading> for Shown {
    fn from(r: Reading) -> Self {
        Shown {
            seconds: u64::from(r.seconds),
            micros: u64::from(r.micros.0),
            status: u64::from(r.status),
            maximum: u64::from(r.maxerror.0),
            estimated: u64::from(r.esterror.0),
        }
    }
}

// An answer to an event as the papers number it, 0 standing for no refusal: the refusal of the call, how many
// ticks it made, the refusal of the tick that ended them, and the clock.
#[derive(Clone, Copy, PartialEq, Eq)]
struct Told {
    refusal: u64,
    count: u64,
    tick_refusal: u64,
    state: State,
}

// What the second answers to an event on this clock.
fn answered(s: State, m: Answer) -> Told {
    match m {
        Ok(ran) => Told {
            refusal: 0,
            count: ran.count,
            tick_refusal: number_of(ran.ended),
            state: ran.state,
        },
        Err(refusal) => Told {
            refusal: refusal.number(),
            count: 0,
            tick_refusal: 0,
            state: s,
        },
    }
}

// What the second answers to a single call that leaves a clock.
fn answered_alone(refused: State, a: Result<State, Refusal>) -> Told {
    answered(refused, a.map(Ran::from))
}

impl From<Outcome> for Told {
    fn from(o: Outcome) -> Self {
        Told {
            refusal: u64::from(o.refusal),
            count: 0,
            tick_refusal: 0,
            state: State::from(o.clock),
        }
    }
}

impl From<CaughtUp> for Told {
    fn from(r: CaughtUp) -> Self {
        Told {
            refusal: u64::from(r.refusal),
            count: r.count,
            tick_refusal: u64::from(r.tick_refusal),
            state: State::from(r.clock),
        }
    }
}

impl From<Stepped> for Told {
    fn from(e: Stepped) -> Self {
        Told {
            refusal: u64::from(e.refusal),
            count: e.count,
            tick_refusal: u64::from(e.tick_refusal),
            state: State::from(e.clock),
        }
    }
}

// A request is a row: code, mode, then the fields in order of mode bit, offset and frequency mapped.
fn request_of(row: &[u64; ROW]) -> Request {
    Request {
        mode: row[1],
        offset: AskedOffset(to_i64(row[2])),
        frequency: AskedFrequency(to_i64(row[3])),
        maxerror: AskedMicros(row[4]),
        esterror: AskedMicros(row[5]),
        status: row[6],
        constant: row[7],
    }
}

// The event of a row by its own call: code 0 a tick, 1 a setting, 2 a request, 3 a reading, 4 a catch-up.
fn called(c: Clock, row: &[u64; ROW]) -> Told {
    match row[0] {
        0 => Told::from(clock::tick(c)),
        1 => Told::from(clock::set(c, row[1], AskedMicros(row[2]))),
        2 => Told::from(request::adjust(c, request_of(row))),
        4 => Told::from(clock::catch_up(c, row[1], row[2] == 1)),
        _ => Told {
            refusal: u64::from(clock::read(c).refusal),
            count: 0,
            tick_refusal: 0,
            state: State::from(c),
        },
    }
}

// The event of a row, as one of a list.
fn event_of(row: &[u64; ROW]) -> Event {
    match row[0] {
        0 => Event::Call(Call::Tick),
        1 => Event::Call(Call::Setting(row[1], AskedMicros(row[2]))),
        2 => Event::Call(Call::Request(request_of(row))),
        4 => Event::CatchUp(row[1], row[2] == 1),
        _ => Event::Call(Call::Reading),
    }
}

// A step of a list, of an event of this code on this clock, with what it reads.
fn same_step(s: State, code: u64, m: Answer, e: Stepped) -> bool {
    answered(s, m) == Told::from(e)
        && shown_by(code, m.map(|ran| ran.state)) == Shown::from(e.reading)
}

// The clock's own judgement and reading.
fn same_reading(s: State, c: Clock) -> bool {
    let a = reading(s);
    let t = clock::read(c);
    clock::in_range(c) == a.is_ok()
        && u64::from(t.refusal) == number_of(a.err())
        && Shown::from(t.reading) == shown_by(3, a)
}

// An event by its own call and as a step of a list, where the second has answered `m`; and the clock that it
// meets. Clock, event and answer go on as three: a case of all in one struct would be taken apart again here.
pub(crate) fn same_event(s: State, row: &[u64; ROW], m: Answer) -> bool {
    let c = clock_of(s);
    same_reading(s, c)
        && answered(s, m) == called(c, row)
        && same_step(s, row[0], m, event::step(c, event_of(row)))
}

// The ranges' ends and the codes that a caller is told.
fn same_limits() -> bool {
    let l = clock::state_limits();
    let t = clock::status_codes();
    let ends = [l.phase, l.offset, l.frequency];
    [l.seconds, l.micros, l.interval, l.error] == [4294967295, 999999, 1024, 16000000]
        && ends.map(|e| e.lower) == [-268435456, -2097135616, -1677721600]
        && ends.map(|e| e.upper) == [268435456, 2097135616, 1677721600]
        && l.asked == 127999
        && l.constant == 4
        && [t.ok, t.ins, t.del, t.oop, t.bad] == [0, 1, 2, 3, 4]
}

// The units and the other bounds that a caller is told.
fn same_units() -> bool {
    let u = clock::unit_scales();
    let r = playback::run_limits();
    [u.phase, u.offset, u.frequency] == [268435456, 16384, 16777216]
        && [u.second, u.day] == [1000000, 86400]
        && r.history == 65536
        && r.line == 30
        && clock::MAX_CEILING == 65536
        && request::MIN_INTERVAL == 64
        && rig::most_clocks() == 8
        && summary::QUARTERS == QUARTERS
}

// The numbers of the refusals, in the order of documents 01 and 02.
fn same_refusals() -> bool {
    let r = clock::refusal_numbers();
    let told = [
        r.state,
        r.time,
        r.last,
        r.mode,
        r.offset,
        r.frequency,
        r.error,
        r.status,
        r.constant,
        r.ended,
        r.form,
        r.field,
        r.beyond,
        r.room,
        r.label,
        r.ceiling,
        r.soon,
        r.place,
        r.table,
    ];
    told == [
        1, 2, 3, 4, 5, 6, 7, 8, 9, 10, 11, 12, 13, 14, 15, 16, 17, 18, 19,
    ]
}

// The bits of a mode.
fn same_bits() -> bool {
    let m = request::mode_bits();
    let told = [
        m.offset,
        m.frequency,
        m.maxerror,
        m.esterror,
        m.status,
        m.constant,
    ];
    told == [1, 2, 4, 8, 16, 32]
}

// A kind's constants. An adjustment grows by `scale` for each unit of the share, and by 1 for `divisor` units
// of the frequency, each a part of it.
fn same_device(kind: u64, d: Device) -> bool {
    u64::from(d.rate) == rate(kind)
        && u64::from(d.tick.0) == whole_micros(kind)
        && u64::from(d.scale) == slew(kind, 1)
        && u64::from(d.divisor) == parts(kind)
        && mapped(d.base.0) == adjustment_at(kind, 0)
        && mapped(d.least.0) == end_of(kind, true)
        && mapped(d.most.0) == end_of(kind, false)
}

// The two kinds by their public names.
fn same_kinds() -> bool {
    [clock::KIND_256, clock::KIND_1024] == [0, 1]
}

// What a caller begins with: the limits and names, the fresh clock of a number that need not be a kind, where
// the second has answered `a`, and the constants of the kind that this clock has.
pub(crate) fn same_start(kind: u64, a: Result<State, Refusal>) -> bool {
    let o = clock::fresh(byte(kind));
    let d = clock::device_constants(byte(kind));
    let names = same_limits() && same_units() && same_refusals() && same_bits() && same_kinds();
    let state = a.unwrap_or(fresh(0));
    names
        && answered_alone(state, a) == Told::from(o)
        && u64::from(d.refusal) == number_of(a.err())
        && same_device(state.kind, d.device)
}

// Up to n ticks in one call, where the second has answered `m`. The call gives one refusal, which is that of
// the tick where one ended them.
pub(crate) fn same_ticks(s: State, n: u64, m: Answer) -> bool {
    let o = clock::run_ticks(clock_of(s), n);
    u64::from(o.refusal) == number_of(refusal_of(m)) && State::from(o.clock) == answered(s, m).state
}

// An answer of the first with the number that its refusal has.
fn numbered<T>(answer: Result<T, state::Refusal>) -> Result<T, u64> {
    answer.map_err(|refusal| u64::from(refusal.number()))
}

// The number at `at`.
pub(crate) fn same_number(bytes: &[u8], at: usize, mine: Result<Number, Refusal>) -> bool {
    let first = numbered(number::read(bytes, at));
    let mine = mine.map(|n| (n.value, at.saturating_add(n.size)));
    first.map(|n| (n.value, n.next)) == mine.map_err(Refusal::number)
}

// What a writer answered: the place after what it wrote, or the refusal's number; and the buffer, of which it
// was lent a part.
#[derive(Clone, Copy)]
pub(crate) struct Wrote {
    pub(crate) answer: Result<usize, u64>,
    pub(crate) text: [u8; 64],
}

// What a writer answers to the first `room` bytes of a buffer that holds `fill`.
fn written_by<F: FnOnce(&mut [u8]) -> Result<usize, u64>>(fill: u8, room: usize, writer: F) -> Wrote
    requires { F.IsAlwaysCallable writer }
{
    let mut text = [fill; 64];
    let answer = writer(&mut text[..room.min(64)]);
    Wrote { answer, text }
}

// One number, by the writer of a single one.
pub(crate) fn write_number(fill: u8, room: usize, at: usize, n: u64) -> Wrote {
    written_by(fill, room, |buf| numbered(number::write(buf, at, word(n))))
}

// Up to a row of numbers.
pub(crate) fn write_numbers(fill: u8, room: usize, at: usize, numbers: &[u64]) -> Wrote {
    let mut words = [0; ROW];
    for (w, n) in words.iter_mut().zip(numbers) {
        *w = word(*n);
    }
    let words = &words[..numbers.len().min(ROW)];
    written_by(
        fill,
        room,
        |buf| numbered(number::write_all(buf, at, words)),
    )
}

// The number that n's value is mapped to, the value that m stands for, and the size of n as it is written.
pub(crate) fn same_mapping(n: u64, m: u64, size: usize) -> bool {
    number::map(to_i32(n)) == word(n)
        && number::unmap(m) == to_i64(m)
        && number::size(word(n)) == size
}

// A label's writer tells no place: it is always the same.
pub(crate) fn write_label(s: State, fill: u8, room: usize) -> Wrote {
    written_by(
        fill,
        room,
        |buf| numbered(label::write(clock_of(s), buf)).map(|()| 20),
    )
}

// A text that is no label gives second 0 and no 60.
pub(crate) fn same_label(text: &[u8], mine: Result<Label, Refusal>) -> bool {
    let a = label::read(text);
    let (second, sixty) = mine.map_or((0, false), |label| (label.second, label.sixty));
    u64::from(a.refusal) == number_of(mine.err())
        && u64::from(a.seconds) == second
        && a.sixty == sixty
}

// The date of a second, eight digits, and the day that has this date.
pub(crate) fn same_date(second: u64, date: u64) -> bool {
    let d = calendar::date_of_second(word(second));
    let told = [d.year, d.month, d.day].map(u64::from);
    told == [date / 10000, date / 100 % 100, date % 100]
        && calendar::day_of(d).map(u64::from) == Some(second / 86400)
}

pub(crate) fn write_record(s: State, fill: u8, room: usize) -> Wrote {
    written_by(fill, room, |buf| numbered(record::write(clock_of(s), buf)))
}

// The clock that bytes are a record of; of bytes that are none the fresh one of kind 0.
pub(crate) fn same_record(bytes: &[u8], a: Result<State, Refusal>) -> bool {
    let r = record::read(bytes);
    u64::from(r.refusal) == number_of(a.err()) && State::from(r.clock) == a.unwrap_or(fresh(0))
}

// Whether a summary holds what was worked out afresh.
fn same_summary(mine: [Quarter; QUARTERS], m: &Summary) -> bool {
    let told = m.counts.iter().zip(m.largest.iter());
    mine.iter().zip(told).all(|(q, (count, largest))| {
        q.count == u64::from(*count) && q.largest == u64::from(*largest)
    })
}

// The summary of what was worked out afresh, which fits.
fn summary_of(mine: [Quarter; QUARTERS]) -> Summary {
    Summary {
        counts: mine.map(|q| (q.count % 65536) as u16),
        largest: mine.map(|q| word(q.largest)),
    }
}

// The summaries that the first has carried along a list, by value and in place, and whether it answered the
// events as the second did.
#[derive(Clone, Copy)]
pub(crate) struct Carried {
    by_value: Summary,
    in_place: Summary,
    same: bool,
}

// Before the first event of a list.
pub(crate) fn carried_from(t: &Taken) -> Carried {
    let m = summary_of(afresh(t));
    Carried {
        by_value: m,
        in_place: m,
        same: true,
    }
}

// One event more, where the second has answered `m`.
pub(crate) fn carried_past(from: Carried, s: State, row: &[u64; ROW], m: Answer) -> Carried {
    let c = clock_of(s);
    let e = event_of(row);
    let a = summary::step(c, e, from.by_value);
    let mut in_place = from.in_place;
    let stepped = summary::step_in_place(c, e, &mut in_place);
    Carried {
        by_value: a.summary,
        in_place,
        same: from.same && same_step(s, row[0], m, a.stepped) && same_step(s, row[0], m, stepped),
    }
}

// After the last event of a list.
pub(crate) fn same_carried(t: &Taken, c: Carried) -> bool {
    let mine = afresh(t);
    c.same && same_summary(mine, &c.by_value) && same_summary(mine, &c.in_place)
}

// Where a run stands.
fn same_run(mine: &Replayed, run: &Run) -> bool {
    run.ended == mine.over
        && run.place == mine.place
        && run.quarter == mine.quarter
        && State::from(run.clock) == mine.state
        && same_summary(afresh(&mine.taken), &run.summary)
}

// The run that stands where the second does.
fn run_at(mine: &Replayed) -> Run {
    Run {
        clock: clock_of(mine.state),
        place: mine.place,
        quarter: mine.quarter,
        ended: mine.over,
        summary: summary_of(afresh(&mine.taken)),
    }
}

pub(crate) fn same_begun(mine: &Replayed) -> bool {
    same_run(mine, &playback::start())
}

// Where the second is to come to beside a run.
fn mark_of(run: &Run) -> Option<Mark> {
    (!run.ended).then_some(Mark {
        place: run.place,
        quarter: run.quarter,
    })
}

// One call on a run, which took the second from `before` to where `mine` stands, with `size` bytes of output:
// refused with room for no line, unless nothing is left to write; else it comes past an event or a
// quarter-hour, or to the end, and goes on as long as there is room for one more line.
fn same_call(before: &Replayed, mine: &Replayed, size: usize, room: usize, f: &Filling) -> bool {
    let refusal = pick(room < 30 && !before.over, 14, 0);
    let moved = before.place < mine.place || before.quarter < mine.quarter || mine.over;
    u64::from(f.refusal) == refusal
        && moved == (refusal == 0)
        && f.length == size
        && (mine.over || room < size.saturating_add(30))
        && same_run(mine, &f.run)
}

// A run over a history from where `from` stands, in calls that lend `room` bytes. After each call the second
// goes on to the same place.
pub(crate) fn same_replay(from: &Replayed, room: usize) -> bool {
    let mut out = Output::new();
    let mut mine = *from;
    let mut run = run_at(from);
    let mut same = true;
    for _ in 0..STEPS {
        let mut part = [9; 64];
        let f = playback::fill(from.bytes, run, &mut part[..room.min(64)]);
        run = f.run;
        let before = mine;
        let size = out.size;
        mine = caught_up(before, mark_of(&run), &mut out);
        let text = out.since(size);
        same = same && same_call(&before, &mine, text.len(), room, &f) && stands(&part, text, 9);
        if mine.over {
            break;
        }
    }
    same && mine.over == (29 < room || from.over)
}
