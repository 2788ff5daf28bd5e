// 01's form of a plan over request structs: a thin function reads a request from the lent list and hands it by value to the covered single-request allocation, the state by value too. Nothing leans on it; `plan::list` answers each request where the state stands.
#![tactic(auto)]

ghost use Rattle.std.specs.Prelude.{◌≡◌, ◌<◌, length, get_or};
ghost use Rattle.definition.specs.Plan.{lent};
ghost use Rattle.tables.specs.Views.{state_view};
ghost use Rattle.request.specs.Asked.{request_of};
ghost use Rattle.plan.specs.Steps.{numbered, turned};
ghost use Rattle.plan.specs.Nobody.{nobody};

use request::Request;
use tables::{RECORD, State};

// A refusal names its request.
pub fn number(mut t: State, i: usize) -> State
    ensures { state_view result ≡ numbered i (state_view t) }
{
    if t.number != 0 {
        t.index = i as u64;
    }
    t
}

// One request in its turn: after a refusal nothing is done; else it is lent the part of the results that begins at its own record.
pub fn turn(s: State, r: Request, i: usize, results: &mut [u64]) -> State
    ensures { lent (state_view result) results.new ≡ turned i (request_of r) (state_view s) results.old }
{
    if s.number != 0 || results.len() / RECORD <= i {
        return s;
    }
    let t = allocation::allocate_into(s, r, &mut results[RECORD * i..]);
    number(t, i)
}

// The thin reader: request i of the list in its turn.
pub fn one(s: State, requests: &[Request], i: usize, results: &mut [u64]) -> State
    requires { i < length requests.now }
    ensures { lent (state_view result) results.new ≡ turned i (request_of (get_or requests.now i nobody)) (state_view s) results.old }
{
    turn(s, plan::list::read(requests, i), i, results)
}
