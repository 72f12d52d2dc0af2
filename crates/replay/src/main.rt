// Replays a history: standard input to standard output. A read or a write that fails is said on standard
// error; what was read before a read that fails is not run.
#![tactic(auto)]

use playback::{LONGEST_HISTORY, fill, start};
use program::{read_full, status_of};
use std::fmt::InlineText;
use std::io;
use std::io::ErrorKind;
use std::process::ExitCode;

// One byte more than the longest history, so that a longer one is seen.
const ROOM: usize = LONGEST_HISTORY + 1;

// How many bytes of lines are written at a time: so many that a run does not spend its time on calls.
const WRITTEN: usize = 65536;

// std's words on an error of the system end with its number, which is left out.
fn without_number(words: &str) -> &str {
    words
        .split_once(" (os error ")
        .map_or(words, |(before, _)| before)
}

// Says on standard error what failed, and why.
fn tell_failure(rt: &impl Eprint, what: &str, error: io::Error) {
    let words = InlineText::<128>::of(error);
    let why = without_number(words.as_str());
    let _ = eprintln!(rt; "{what}: {why}");
}

// Fills the buffer with lines and writes it out, until the run has ended.
fn replay(rt: &impl Print, bytes: &[u8]) -> io::Result<()> {
    let mut out = [0u8; WRITTEN];
    let mut run = start();
    while !run.ended {
        let filled = fill(bytes, run, &mut out);
        rt.write_all(&out[..filled.length])?;
        run = filled.run;
    }
    Ok(())
}

// What has failed is told by standard error, and not by the status; a pipe that nobody reads by the status
// alone.
fn main(rt: HostRuntime) -> ExitCode {
    let mut buf = [0u8; ROOM];
    let (n, read) = read_full(&mut rt.stdin(), &mut buf);
    if let Err(error) = read {
        tell_failure(&rt, "replay: standard input", error);
        return ExitCode::SUCCESS;
    }
    let written = replay(&rt, &buf[..n]);
    if let Err(error) = written
        && error.kind() != ErrorKind::BrokenPipe
    {
        tell_failure(&rt, "replay: standard output", error);
    }
    status_of(written)
}
