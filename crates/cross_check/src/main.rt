// Runs a second implementation of documents 01 and 02 beside the first, over pseudo-random and edge cases,
// and compares every answer to the last bit. One line for each group says how many cases were compared, how
// many differ, and how often the second implementation gave each answer: 0 for accepted, else the number of
// the refusal, of the call or of the tick that ended a catch-up. Of lists it also says how many offsets were
// accepted where there was an earlier one, and of clocks at an edge in how many cases whole units that add up
// decide the microseconds or the refusal. The last line is the verdict. It ends in `the two agree` where none
// of the cases that are owed is missing and none differs, and there were 1,000 such offsets and as many such
// cases, up and down; else it begins with `cross_check: DIFFER` and says how many differ in how many groups,
// whose lines above name them, or with `cross_check: TOO FEW` and says of what, and of how many.
#![tactic(auto)]

mod calls;
mod dates;
mod devices;
mod first;
mod form;
mod histories;
mod labels;
mod many;
mod numbers;
mod quarters;
mod random;
mod records;
mod refusals;
mod replay;
mod rules;
mod signed;
mod summaries;

use crate::calls::Verdict;
use crate::refusals::number_of;
use program::status_of;
use std::io;
use std::process::ExitCode;

// Differences told one by one in each group; the others are only counted.
const TOLD: u64 = 5;

// How many answers there can be: accepted, and the refusals 1 to 17.
const ANSWERS: usize = 18;

// The cases that are owed, of all groups together.
const OWED: u64 = 1090583;

// The fewest offsets of all lists that are accepted where there was an earlier one, whose gain is what the
// interval moves; and the fewest cases that whole units decide, in either direction.
const FEWEST: u64 = 1000;

// What a group came to, or all of them: cases compared and those that differ, groups without and with such a
// case, the offsets of lists, and the cases that whole units decide.
#[derive(Clone, Copy, Default)]
struct Tally {
    compared: u64,
    differ: u64,
    agreeing: u64,
    differing: u64,
    offsets: u64,
    up: u64,
    down: u64,
}

impl Tally {
    // One case more of a group.
    fn count(&mut self, v: Verdict) {
        self.add(Tally {
            compared: 1,
            differ: u64::from(!v.same),
            offsets: v.offsets,
            up: u64::from(v.up),
            down: u64::from(v.down),
            ..Tally::default()
        });
    }

    fn add(&mut self, other: Tally) {
        self.compared = self.compared.saturating_add(other.compared);
        self.differ = self.differ.saturating_add(other.differ);
        self.agreeing = self.agreeing.saturating_add(other.agreeing);
        self.differing = self.differing.saturating_add(other.differing);
        self.offsets = self.offsets.saturating_add(other.offsets);
        self.up = self.up.saturating_add(other.up);
        self.down = self.down.saturating_add(other.down);
    }
}

// A group's line: its counts, and how often each answer was given.
fn tell_group(rt: &impl Print, name: &str, t: Tally, met: &[u64; ANSWERS]) -> io::Result<()> {
    print!(rt; "{name:<16} compared {} differed {}", t.compared, t.differ)?;
    for (number, times) in met.iter().enumerate() {
        if *times != 0 {
            print!(rt; ", {number}: {times}")?;
        }
    }
    if t.offsets != 0 {
        print!(rt; "; offsets accepted after an earlier one: {}", t.offsets)?;
    }
    if t.up != 0 || t.down != 0 {
        print!(rt; "; decided by whole units, up: {}, down: {}", t.up, t.down)?;
    }
    println!(rt)
}

// All cases of a group, each told that differs, up to TOLD of them; and the counts with the group's.
fn run<F: Fn(u64) -> Verdict>(
    rt: &impl Print,
    all: &mut Tally,
    name: &str,
    cases: u64,
    verdict_of: F,
) -> io::Result<()>
    requires { F.IsAlwaysCallable verdict_of }
{
    let mut met = [0u64; ANSWERS];
    let mut t = Tally::default();
    for case in 0..cases {
        let v = verdict_of(case);
        if !v.same && t.differ < TOLD {
            println!(rt; "{name:<16} differs: {case}")?;
        }
        if let Some(times) = met.get_mut(number_of(v.refusal) as usize) {
            *times = times.saturating_add(1);
        }
        t.count(v);
    }
    tell_group(rt, name, t, &met)?;
    t.agreeing = u64::from(t.differ == 0);
    t.differing = u64::from(t.differ != 0);
    all.add(t);
    Ok(())
}

// Too few of something: how many there were, and of how many.
fn tell_few(rt: &impl Print, what: &str, n: u64, of: u64) -> io::Result<()> {
    println!(rt; "cross_check: TOO FEW {what}: {n} of {of}")
}

// The last line.
fn tell_verdict(rt: &impl Print, t: Tally) -> io::Result<()> {
    let units = t.up.min(t.down);
    if t.differ != 0 {
        println!(rt;
            "cross_check: DIFFER in {} of {} cases, in groups: {}",
            t.differ, t.compared, t.differing
        )
    } else if t.compared != OWED {
        tell_few(rt, "cases", t.compared, OWED)
    } else if t.offsets < FEWEST {
        tell_few(
            rt,
            "offsets accepted after an earlier one",
            t.offsets,
            FEWEST,
        )
    } else if units < FEWEST {
        tell_few(
            rt,
            "cases decided by whole units, up or down",
            units,
            FEWEST,
        )
    } else {
        println!(rt;
            "cross_check: {} of {OWED} cases in {} groups, 0 differ: the two agree",
            t.compared, t.agreeing
        )
    }
}

// The groups of events on the clock.
fn run_calls(rt: &impl Print, all: &mut Tally) -> io::Result<()> {
    run(
        rt,
        all,
        "ticks",
        100000,
        |case| calls::event_on_any(case, 0),
    )?;
    run(
        rt,
        all,
        "settings",
        20000,
        |case| calls::event_on_any(case, 1),
    )?;
    run(
        rt,
        all,
        "requests",
        100000,
        |case| calls::event_on_any(case, 2),
    )?;
    run(
        rt,
        all,
        "readings",
        10000,
        |case| calls::event_on_any(case, 3),
    )?;
    run(rt, all, "catch-ups", 30000, calls::catch_up)?;
    run(rt, all, "long catch-ups", 200, calls::long_catch_up)?;
    run(rt, all, "lists of events", 400, calls::list)?;
    run(rt, all, "many ticks", 10000, calls::many_ticks)?;
    run(rt, all, "units carried", 60000, calls::edge_ticks)?;
    run(rt, all, "kinds", 256, calls::start)
}

// The groups of bytes that are written and read.
fn run_forms(rt: &impl Print, all: &mut Tally) -> io::Result<()> {
    run(rt, all, "numbers read", 100000, numbers::read)?;
    run(rt, all, "numbers written", 50000, numbers::write)?;
    run(rt, all, "numbers mapped", 10000, numbers::map)?;
    run(rt, all, "labels written", 30000, labels::write)?;
    run(rt, all, "labels read", 120000, labels::read)?;
    run(rt, all, "days", 49711, labels::day)?;
    run(rt, all, "records written", 50000, records::write)?;
    run(rt, all, "records read", 100000, records::read)?;
    run(rt, all, "old records read", 100000, records::read_old)?;
    run(rt, all, "odd kinds read", 40000, records::read_odd_kind)?;
    run(rt, all, "odd parts read", 40000, records::read_odd_parts)
}

// The groups of summaries and histories.
fn run_histories(rt: &impl Print, all: &mut Tally) -> io::Result<()> {
    run(rt, all, "summaries", 30000, summaries::list)?;
    run(rt, all, "histories", 40000, histories::replay)?;
    run(rt, all, "long histories", 16, histories::long)
}

fn cross_check(rt: &impl Print) -> io::Result<()> {
    println!(rt;
        "cases compared, cases that differ, and how often each answer was given \
         (0: accepted, else the refusal):"
    )?;
    let mut all = Tally::default();
    run_calls(rt, &mut all)?;
    run_forms(rt, &mut all)?;
    run_histories(rt, &mut all)?;
    tell_verdict(rt, all)
}

// A line that can't be written ends it without a word.
fn main(rt: HostRuntime) -> ExitCode {
    status_of(cross_check(&rt))
}
