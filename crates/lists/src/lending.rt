// For tests and the measure: requests as an array by value, lent as a slice to the doors of the plan over a list. Nothing in the product leans on it.
ghost use Rattle.std.specs.Prelude.{◌≡◌, map, ◌≤◌, take};
ghost use Rattle.definition.specs.Plan.{lent, plan};
ghost use Rattle.tables.specs.Views.{state_view};
ghost use Rattle.request.specs.Asked.{request_of};
ghost use Rattle.plan.specs.Front.{filled};
ghost use Rattle.lists.specs.Most.{most};

use request::Request;
use tables::{PLAN, State};

// One request more than a plan takes.
pub const MOST: usize = PLAN + 1;

// The first n requests planned, on a state by value.
pub fn place(mut s: State, list: [Request; MOST], n: usize, results: &mut [u64]) -> State
    requires { n ≤ most }
    ensures { lent (state_view result) results.new ≡ plan (map request_of (take n list)) (state_view s) results.old }
{
    plan::list::plan_in(&mut s, &list[..n], results);
    s
}

// The filled part of the same plan.
pub fn filled<'a>(
    mut s: State,
    list: [Request; MOST],
    n: usize,
    results: &'a mut [u64],
) -> &'a mut [u64]
    requires { n ≤ most }
    ensures { result.now ≡ filled (map request_of (take n list)) (state_view s) results.old }
{
    plan::list::plan(&mut s, &list[..n], results)
}
