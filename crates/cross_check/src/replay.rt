// Document 01's replay with document 02's summary, a second time: an event is a row of numbers, read by
// masks, and a line a pattern filled from the last digit on.
use crate::dates::{clock_label, fill, filled};
use crate::form::{ROW, Reader};
use crate::many::{Answer, Ran, refusal_of, state_after, ticks};
use crate::quarters::{QUARTERS, Quarter, Taken, none_taken, quarter_of, taken_after};
use crate::refusals::Refusal;
use crate::rules::{State, step};

// The most ticks that one event of a compared history may ask for: the second implementation runs them one by
// one.
const MOST: u64 = 20000;

// The numbers of an event that stand in a history: code, arguments, for a request the mode and the fields
// that it selects.
pub(crate) fn mask_of(row: &[u64; ROW]) -> u64 {
    match row[0] {
        0 => 3,
        1 => 7,
        2 => 3 + row[1] % 64 * 4,
        _ => 1,
    }
}

// The event at `at`, its numbers put into the row, and the place after it. Code 4 asks for the summary, and
// is one at place 0 alone.
fn event_at(bytes: &[u8], at: usize, row: &mut [u64; ROW]) -> Result<usize, Refusal> {
    let mut reader = Reader::new(bytes, at);
    reader.take(1, row)?;
    let last = if at == 0 { 4 } else { 3 };
    if last < row[0] {
        return Err(Refusal::Field);
    }
    if row[0] < 3 {
        reader.take(2, row)?;
    }
    reader.take(mask_of(row) / 4 * 4, row)?;
    Ok(reader.next)
}

// Whether the first event asks for the summary.
fn asks(bytes: &[u8]) -> bool {
    let mut row = [0u64; ROW];
    event_at(bytes, 0, &mut row).is_ok() && row[0] == 4
}

// Code 4 is no event on the clock.
fn answer_of(s: State, row: &[u64; ROW]) -> Answer {
    match row[0] {
        0 => ticks(s, row[1]),
        4 => Ok(Ran::from(s)),
        _ => step(s, row).map(Ran::from),
    }
}

// There is room for all output: 64 events and 96 quarter-hours print no more than 3,840 bytes.
const OUTPUT: usize = 4096;

// The output of a run: the first `size` bytes. A fixed array, since no program here has a heap.
#[derive(Drop)]
pub(crate) struct Output {
    bytes: [u8; OUTPUT],
    pub(crate) size: usize,
}

impl Output {
    pub(crate) fn new() -> Self {
        Output {
            bytes: [0; OUTPUT],
            size: 0,
        }
    }

    fn put(&mut self, b: u8) {
        if let Some(place) = self.bytes.get_mut(self.size) {
            *place = b;
            self.size = self.size.saturating_add(1);
        }
    }

    // Puts a line. Numbers that begin at its place `plain` or behind it stand there without their leading
    // zeros: a zero leads where no other digit stands before it in its number and one follows.
    fn put_line(&mut self, line: &[u8], plain: usize) {
        let mut leads = true;
        for (k, b) in line.iter().enumerate() {
            let follows = line.get(k + 1).is_some_and(|next| b'0' <= *next);
            let zero = plain <= k && *b == b'0' && follows;
            if !(leads && zero) {
                self.put(*b);
            }
            leads = *b == b' ' || (leads && *b == b'0');
        }
    }

    fn put_refusal(&mut self, refusal: Refusal) {
        self.put_line(&filled(*b"refused 00\n", refusal.number()), 8);
    }

    // Label, microseconds and status.
    fn put_print(&mut self, s: State) {
        let digits = s.micros % 1000000 * 10 + s.status % 10;
        self.put_line(&clock_label(s), 20);
        self.put_line(&filled(*b" 000000 0\n", digits), 10);
    }

    // The line of bytes that are no event.
    fn put_log(&mut self, refusal: Refusal, place: usize) {
        let digits = refusal.number() % 100 * 100000 + place as u64 % 100000;
        self.put_line(&filled(*b"log 00 at 00000\n", digits), 4);
    }

    // A quarter-hour's line, or none where it has no offset.
    fn put_quarter(&mut self, quarter: u64, q: Quarter) {
        if q.count != 0 {
            let counted = quarter % 100 * 100000 + q.count % 100000;
            let digits = counted * 10000000000 + q.largest % 10000000000;
            self.put_line(&filled(*b"00 00000 0000000000\n", digits), 3);
        }
    }

    // What was put since the size was this one.
    pub(crate) fn since(&self, size: usize) -> &[u8] {
        self.bytes.get(size..self.size).unwrap_or(&[])
    }
}

// Where a run stands: the clock, the bytes of the history, the place of the next event in them, the refusal
// of the log line, else of the last refused event, and whether it is over; whether the summary is asked for,
// the next quarter-hour whose line is due, and the accepted offsets.
#[derive(Clone, Copy)]
pub(crate) struct Replayed<'a> {
    pub(crate) state: State,
    pub(crate) bytes: &'a [u8],
    pub(crate) place: usize,
    pub(crate) refusal: Option<Refusal>,
    pub(crate) over: bool,
    pub(crate) asked: bool,
    pub(crate) quarter: usize,
    pub(crate) taken: Taken,
}

// A run from a clock on, before its first event; and what stood in the quarter-hours before it.
pub(crate) fn begun<'a>(s: State, bytes: &'a [u8], before: u64) -> Replayed<'a> {
    Replayed {
        state: s,
        bytes,
        place: 0,
        refusal: None,
        over: false,
        asked: asks(bytes),
        quarter: 0,
        taken: none_taken(before),
    }
}

fn ended<'a>(r: Replayed<'a>) -> Replayed<'a> {
    Replayed { over: true, ..r }
}

// A run that ends with a log line, its place `at`.
fn logged<'a>(r: Replayed<'a>, refusal: Refusal, at: usize, out: &mut Output) -> Replayed<'a> {
    out.put_log(refusal, at);
    Replayed {
        refusal: Some(refusal),
        ..ended(r)
    }
}

// A run that has come to the end of its history: past its next quarter-hour where the summary is asked for,
// else over.
fn closed<'a>(r: Replayed<'a>, out: &mut Output) -> Replayed<'a> {
    let quarter = r.quarter;
    if !r.asked || QUARTERS <= quarter {
        return ended(r);
    }
    out.put_quarter(quarter as u64, quarter_of(&r.taken, quarter as u64));
    Replayed {
        quarter: quarter + 1,
        ..r
    }
}

// A run after an event, the next one at `place`.
fn went_on<'a>(r: Replayed<'a>, place: usize, row: &[u64; ROW], out: &mut Output) -> Replayed<'a> {
    let a = answer_of(r.state, row);
    let refusal = refusal_of(a);
    let state = state_after(r.state, a);
    match refusal {
        Some(refusal) => out.put_refusal(refusal),
        None if row[0] == 3 => out.put_print(state),
        None => (),
    }
    Replayed {
        state,
        place,
        refusal: refusal.or(r.refusal),
        taken: taken_after(r.taken, r.state, row, refusal.is_none()),
        ..r
    }
}

// A history cut at its next event.
fn cut<'a>(r: Replayed<'a>) -> Replayed<'a> {
    Replayed {
        bytes: r.bytes.get(..r.place).unwrap_or(r.bytes),
        ..r
    }
}

// A run after its next event, or after its end. One of too many ticks is where the history is cut; of more
// than 65,536 bytes none is run.
fn advanced<'a>(r: Replayed<'a>, out: &mut Output) -> Replayed<'a> {
    if r.bytes.len() <= r.place {
        return closed(r, out);
    }
    if 65536 < r.bytes.len() {
        return logged(r, Refusal::Beyond, 65536, out);
    }
    let mut row = [0u64; ROW];
    match event_at(r.bytes, r.place, &mut row) {
        Err(refusal) => logged(r, refusal, r.place, out),
        Ok(_) if row[0] == 0 && MOST < row[1] => cut(r),
        Ok(place) => went_on(r, place, &row, out),
    }
}

// The most steps of a run over up to 64 bytes: 64 events, a cut, 96 quarter-hours and the end.
pub(crate) const STEPS: u64 = 162;

// Where a run is to come to: past the events before `place` and the lines of the quarter-hours before
// `quarter`.
#[derive(Clone, Copy)]
pub(crate) struct Mark {
    pub(crate) place: usize,
    pub(crate) quarter: usize,
}

// A run that has come to a mark, or to its end.
pub(crate) fn caught_up<'a>(
    from: Replayed<'a>,
    mark: Option<Mark>,
    out: &mut Output,
) -> Replayed<'a> {
    let mut r = from;
    for _ in 0..STEPS {
        if r.over || mark.is_some_and(|m| m.place <= r.place && m.quarter <= r.quarter) {
            return r;
        }
        r = advanced(r, out);
    }
    r
}
