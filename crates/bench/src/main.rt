// Repeats an operation as often as a line of standard input says, as `tick 1000000`, and prints a checksum
// that depends on every result: one for each line. `bench/run` compares the cost of each with that of the
// same operation in C.
#![tactic(auto)]

mod clocks;
mod labels;
mod numbers;
mod records;

use clock::{KIND_256, KIND_1024, MAX_CEILING};
use program::{read_full, status_of};
use std::io;
use std::process::ExitCode;
use workload::{Checksum, Values, count_of};

// The bytes that are read of the input.
const ROOM: usize = 4096;

// The least number of as many bytes as a digit says, up to 5.
fn least_number(digit: Option<&u8>) -> u32 {
    match digit {
        None | Some(b'1') => 0,
        Some(b'2') => 128,
        Some(b'3') => 16384,
        Some(b'4') => 2097152,
        _ => 268435456,
    }
}

// The kind of the device that a word of ticks is about: of both kinds they are called at one place, so that a
// kind is not known there.
fn kind_of(word: &[u8]) -> u8 {
    if word.ends_with(b"-1024 ") {
        KIND_1024
    } else {
        KIND_256
    }
}

// How many ticks the calls of a word make: a second's, or the most that a catch-up may be asked for.
fn ceiling_of(word: &[u8]) -> u64 {
    match word {
        b"second " => 256,
        b"second-1024 " => 1024,
        _ => MAX_CEILING,
    }
}

#[derive(Clone, Copy)]
enum Operation {
    Ticks,
    CatchUps,
    Requests,
    LabelWrites,
    LabelReads,
    RecordWrites,
    RecordReads,
}

// The words, each with the space behind it. Kind and ceiling are read from the word and do not stand here:
// then the compiler no longer knows that a ceiling is in range, and a second of ticks takes 136 instructions
// for 131.
const OPERATIONS: [(&[u8], Operation); 11] = [
    (b"tick ", Operation::Ticks),
    (b"tick-1024 ", Operation::Ticks),
    (b"second ", Operation::CatchUps),
    (b"second-1024 ", Operation::CatchUps),
    (b"catch-up ", Operation::CatchUps),
    (b"catch-up-1024 ", Operation::CatchUps),
    (b"request ", Operation::Requests),
    (b"label-write ", Operation::LabelWrites),
    (b"label-read ", Operation::LabelReads),
    (b"record-write ", Operation::RecordWrites),
    (b"record-read ", Operation::RecordReads),
];

// Numbers of as many bytes as the word's last digit says.
fn run_numbers(line: &[u8], count: u64) -> Option<Checksum> {
    if let Some(digits) = line.strip_prefix(b"number-read-") {
        return Some(numbers::reads(least_number(digits.first()), count));
    }
    let digits = line.strip_prefix(b"number-")?;
    Some(numbers::round_trips(least_number(digits.first()), count))
}

fn run(line: &[u8]) -> Option<Checksum> {
    let count = count_of(line);
    let values = Values::of(line);
    let found = OPERATIONS.iter().find(|(word, _)| line.starts_with(word));
    let Some((word, operation)) = found else {
        return run_numbers(line, count);
    };
    let kind = kind_of(word);
    Some(match *operation {
        Operation::Ticks => clocks::ticks(&values, kind, count),
        Operation::CatchUps => clocks::catch_ups(&values, kind, ceiling_of(word), count),
        Operation::Requests => clocks::requests(&values, count),
        Operation::LabelWrites => labels::writes(count),
        Operation::LabelReads => labels::reads(count),
        Operation::RecordWrites => records::writes(&values, count),
        Operation::RecordReads => records::reads(&values, count),
    })
}

fn print_answer(rt: &impl Print, line: &[u8]) -> io::Result<()> {
    match run(line) {
        Some(sum) => println!(rt; "{}", sum.0),
        None => println!(rt; "no such operation"),
    }
}

// A line break at the end of the text begins no further line.
fn run_lines(rt: &impl Print, text: &[u8]) -> io::Result<()> {
    for line in text.split_inclusive(|b| *b == b'\n') {
        print_answer(rt, line.strip_suffix(b"\n").unwrap_or(line))?;
    }
    Ok(())
}

// What was read before a read that fails is run.
fn main(rt: HostRuntime) -> ExitCode {
    let mut buf = [0u8; ROOM];
    let (n, _) = read_full(&mut rt.stdin(), &mut buf);
    status_of(run_lines(&rt, &buf[..n]))
}
