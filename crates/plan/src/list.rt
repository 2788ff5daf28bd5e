// A plan over a lent list of request structs: each is read where it stands.
ghost use Rattle.std.specs.Prelude.{◌≡◌, map, ◌<◌, length, get_or};
ghost use Rattle.definition.specs.Plan.{lent, plan};
ghost use Rattle.tables.specs.Views.{state_view};
ghost use Rattle.request.specs.Asked.{request_of};
ghost use Rattle.plan.specs.Front.{filled};
ghost use Rattle.plan.specs.Nobody.{nobody};

use super::{open, settle, turn, turns};
use request::Request;
use tables::State;

// The thin reader.
pub fn read(requests: &[Request], i: usize) -> Request
    requires { i < length requests.now }
    ensures { result ≡ get_or requests.now i nobody }
{
    requests[i]
}

// All of them, n, on the state lent. (A loop beside that over numbers: here a request stands as it is, there it may be one that cannot be read.)
fn run_in(state: &mut State, requests: &[Request], results: &mut [u64], n: usize)
    requires { n ≡ length requests.now }
    ensures { lent (state_view state.new) results.new ≡ plan (map request_of requests.now) (state_view state.old) results.old }
{
    let m = inplace::marks::peek(state);
    let turns = turns(open(state, n, results.len()), n);
    for i in 0..turns {
        let r = read(requests, i);
        turn(state, r, i, results);
    }
    settle(state, m);
}

// The plan. The answer stands in the state afterwards; results past the accepted requests' records are as they were.
pub fn plan_in(state: &mut State, requests: &[Request], results: &mut [u64])
    ensures { lent (state_view state.new) results.new ≡ plan (map request_of requests.now) (state_view state.old) results.old }
{
    run_in(state, requests, results, requests.len());
}

// The same plan, and its filled part is handed back: the caller's own first numbers, nine for each request accepted.
pub fn plan<'a>(state: &mut State, requests: &[Request], results: &'a mut [u64]) -> &'a mut [u64]
    ensures { (state_view state.new ≡ (plan (map request_of requests.now) (state_view state.old) results.old).state)
        × (result.now ≡ filled (map request_of requests.now) (state_view state.old) results.old) × (result.ref_ptr ≡ results.entry.ref_ptr) }
{
    plan_in(state, requests, results);
    let m = inplace::marks::peek(state);
    crate::front::front(results, m.number, m.index, requests.len())
}
