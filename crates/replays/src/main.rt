// Demand 3 on random plans of all kinds: each is run, pinned, and some of its lines are run again in another order. The second answer must be 0, each record the one it had, and the owner tables the reservations and those lines' rows.
#![tactic(auto)]

mod checked;
mod drawn;
mod lends;
mod pools;

use flat::REQUEST;
use std::io;
use tables::{PLAN, RECORD, State};

// The numbers of the longest plan, and of its results.
const LINES: usize = REQUEST * PLAN;

const RESULTS: usize = RECORD * PLAN;

// What became of a plan.
#[derive(Clone, Copy)]
pub enum Outcome {
    Passed,
    Refused,
    Failed,
}

// A plan that its first run accepts is run again by `replay::replay`.
pub fn again(s: State, requests: &mut [u64], selection: &[u64], first: &[u64]) -> Outcome {
    let mut results = [0u64; RESULTS];
    let mut second = [0u64; RESULTS];
    let t = lends::replay(s, requests, selection, &mut results, &mut second);
    if t.number == 0
        && checked::records(first, selection, &second)
        && checked::owners(&t, &second, selection.len())
    {
        Outcome::Passed
    } else {
        Outcome::Failed
    }
}

pub fn tried(seed: u32) -> Outcome {
    let s = pools::tables(seed);
    if s.number != 0 {
        return Outcome::Failed;
    }
    let n = drawn::lines(seed);
    let m = drawn::some_of(seed, n);
    let long = REQUEST * n;
    let mut requests = [0u64; LINES];
    drawn::fill(seed, &mut requests);
    let mut order = [0u64; PLAN];
    drawn::shuffle(seed, n, &mut order);
    let mut first = [0u64; RESULTS];
    let t = plan::numbers::plan_by_value(pool::start(s), &requests[..long], &mut first);
    if t.number != 0 {
        return Outcome::Refused;
    }
    again(s, &mut requests[..long], &order[..m], &first)
}

fn main(rt: HostRuntime) -> io::Result<()> {
    let mut passed: u64 = 0;
    let mut refused: u64 = 0;
    for seed in 0..600 {
        match tried(seed) {
            Outcome::Passed => passed += 1,
            Outcome::Refused => refused += 1,
            Outcome::Failed => println!(rt; "{seed} failed")?,
        }
        if seed % 100 == 99 {
            println!(rt; "{passed} passed, refused {refused}")?;
        }
    }
    Ok(())
}
