// Repeats a request with a summary moved by it as often as standard input says, as `request-summed 1000000`,
// and prints a checksum that depends on every result. `bench/run` compares its cost with that of the same
// in C. A program of its own: what two places of one program call is kept apart from both, and beside the
// operations of `bench` it would make a plain request and a tick dearer.
#![tactic(auto)]

mod requests;

use crate::requests::summed_requests;
use program::{read_full, status_of};
use std::process::ExitCode;
use workload::{Values, count_of};

// The bytes that are read of the input.
const ROOM: usize = 4096;

// What was read before a read that fails is run.
fn main(rt: HostRuntime) -> ExitCode {
    let mut buf = [0u8; ROOM];
    let (n, _) = read_full(&mut rt.stdin(), &mut buf);
    let line = &buf[..n];
    let sum = summed_requests(&Values::of(line), count_of(line));
    status_of(println!(rt; "{}", sum.0))
}
