// Runs the doors of the plan over a lent list of requests: plan::list::plan_in and plan::list::plan. One line for each case: `passed` where the answer, the records, every number behind them and the owner tables are as expected.
#![tactic(auto)]

mod expected;
mod input;
pub mod lending;

use crate::input::{CONFLICT, Flaw};
use crate::lending::MOST;
use std::io;
use tables::{PLAN, RECORD};

// Numbers of results: of the longest plan, and of one request more.
const ALL: usize = RECORD * PLAN;

const MORE: usize = RECORD * MOST;

// A plan and its answer: n requests, what is wrong with them or with the tables, room for so many numbers; the five numbers of the answer, and how many requests are accepted.
#[derive(Clone, Copy)]
pub struct Case {
    pub n: usize,
    pub flaw: Flaw,
    pub room: usize,
    pub answer: [u64; 5],
    pub accepted: usize,
}

// The longest plan.
const LONGEST: Case = Case {
    n: PLAN,
    flaw: Flaw::Nothing,
    room: ALL,
    answer: [0; 5],
    accepted: PLAN,
};

// A plan that is refused with 11, and writes nothing.
const SHORT: Case = Case {
    answer: [11, 0, 0, 0, 0],
    accepted: 0,
    ..LONGEST
};

const CASES: [Case; 8] = [
    LONGEST,
    // one of eight
    Case {
        n: 8,
        accepted: 8,
        ..LONGEST
    },
    // none
    Case {
        n: 0,
        room: 0,
        accepted: 0,
        ..LONGEST
    },
    // a refusal in the middle
    Case {
        flaw: Flaw::Conflict,
        answer: [8, CONFLICT as u64, 1, 6, 1],
        accepted: CONFLICT,
        ..LONGEST
    },
    // one number of results too few
    Case {
        room: ALL - 1,
        ..SHORT
    },
    // one request too many
    Case {
        n: MOST,
        room: MORE,
        ..SHORT
    },
    // the same with too few results
    Case { n: MOST, ..SHORT },
    // unsound tables
    Case {
        flaw: Flaw::Damaged,
        answer: [1, 0, 0, 0, 0],
        ..SHORT
    },
];

// The plan on the state lent, over results that begin as nines.
pub fn in_place(c: Case) -> bool {
    if MOST < c.n || MORE < c.room {
        return false;
    }
    let mut out = [9u64; MORE];
    let list = input::requests(c.flaw);
    let t = lending::place(input::state(c.flaw), list, c.n, &mut out[..c.room]);
    expected::answer(&t) == c.answer
        && expected::owners(&t, c)
        && out == expected::results(c.accepted)
}

// The filled part that is handed back: these records and nothing else.
pub fn part(c: Case) -> bool {
    if MOST < c.n || MORE < c.room || MOST < c.accepted {
        return false;
    }
    let mut out = [9u64; MORE];
    let list = input::requests(c.flaw);
    let front = lending::filled(input::state(c.flaw), list, c.n, &mut out[..c.room]);
    front[..] == expected::results(c.accepted)[..RECORD * c.accepted]
}

fn main(rt: HostRuntime) -> io::Result<()> {
    for (k, c) in CASES.iter().enumerate() {
        let said = if !in_place(*c) {
            "plan_in failed"
        } else if !part(*c) {
            "plan failed"
        } else {
            "passed"
        };
        println!(rt; "{k} {said}")?;
    }
    Ok(())
}
