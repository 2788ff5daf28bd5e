// A plan over requests that are plain numbers, twelve a request.
ghost use Rattle.std.specs.Prelude.{◌≡◌, length};
ghost use Rattle.definition.specs.Plan.{lent, plan};
ghost use Rattle.tables.specs.Views.{state_view};
ghost use Rattle.flat.specs.Flat.{requests_from, flat_plan, flat_allocate};
ghost use Rattle.plan.specs.Filled.{flat_filled};
ghost use Rattle.plan.specs.Turns.{whole_count, one_count, Within};

use super::{open, settle, turn, turns};
use flat::REQUEST;
use tables::{PLAN, State};

// One more than any plan has.
const MANY: usize = PLAN + 1;

// How many requests a list of so many numbers holds: where it ends within one, more than any plan has.
#[tactic(auto, using(crate::proofs::JudgeLaws::whole_is, crate::proofs::JudgeLaws::whole_not))]
pub fn count(long: usize) -> usize
    ensures { result ≡ whole_count long }
{
    let n = long / REQUEST;
    if REQUEST * n == long { n } else { MANY }
}

// How many requests a list of so many numbers starts with, where one is asked for: one, or more than any plan has.
#[tactic(auto, using(crate::proofs::JudgeLaws::one_is, crate::proofs::JudgeLaws::one_not))]
pub fn one(long: usize) -> usize
    ensures { result ≡ one_count long }
{
    if REQUEST <= long { 1 } else { MANY }
}

// So many requests, the list's first, on the state lent: THE loop over numbers, behind a plan and behind one request. Where more are asked for than a plan has, none is read.
fn run_in(state: &mut State, requests: &[u64], results: &mut [u64], n: usize)
    requires { Within n (length requests.now) }
    ensures { lent (state_view state.new) results.new ≡ plan (requests_from requests.now 0 n) (state_view state.old) results.old }
{
    let m = inplace::marks::peek(state);
    let turns = turns(open(state, n, results.len()), n);
    for i in 0..turns {
        let r = flat::request_at(requests, i);
        turn(state, r, i, results);
    }
    settle(state, m);
}

// The plan on the state lent. The answer stands in the state afterwards; results past the accepted requests' records are as they were.
pub fn plan_in(state: &mut State, requests: &[u64], results: &mut [u64])
    ensures { lent (state_view state.new) results.new ≡ flat_plan requests.now (state_view state.old) results.old }
{
    let n = count(requests.len());
    run_in(state, requests, results, n);
}

// The same plan, and its filled part is handed back: the caller's own first numbers, nine for each request accepted.
pub fn plan<'a>(state: &mut State, requests: &[u64], results: &'a mut [u64]) -> &'a mut [u64]
    ensures { (state_view state.new ≡ (flat_plan requests.now (state_view state.old) results.old).state)
        × (result.now ≡ flat_filled requests.now (state_view state.old) results.old) × (result.ref_ptr ≡ results.entry.ref_ptr) }
{
    plan_in(state, requests, results);
    let m = inplace::marks::peek(state);
    crate::front::front(results, m.number, m.index, count(requests.len()))
}

// One request, the first of the list, with its record: a plan of one.
pub fn allocate_in(state: &mut State, request: &[u64], out: &mut [u64])
    ensures { lent (state_view state.new) out.new ≡ flat_allocate request.now (state_view state.old) out.old }
{
    let n = one(request.len());
    run_in(state, request, out, n);
}

// The plan on a state by value: the state is lent from here.
pub fn plan_by_value(mut s: State, requests: &[u64], results: &mut [u64]) -> State
    ensures { lent (state_view result) results.new ≡ flat_plan requests.now (state_view s) results.old }
{
    plan_in(&mut s, requests, results);
    s
}
