// Demand 3 as a program: a plan, its answers written back into its lines, and some of these lines run again in any order. What is asked and promised of two runs stands in specs/, the law in proofs/.
#![tactic(auto)]

ghost use Rattle.std.specs.Prelude.{◌≡◌};
ghost use Rattle.tables.specs.Views.{state_view};
ghost use Rattle.replay.specs.Runs.{runs, runs_of, Replayable, Replays};

use flat::REQUEST;
use plan::numbers::plan_by_value;
use pool::start;
use tables::{PLAN, State};

pub mod take;

// One line more than a plan has.
const MOST: usize = REQUEST * (PLAN + 1);

// Start, plan, pin; take the selected lines in the given order; start, plan. After a refused first plan nothing more is done. Each step lends the state to the call that ships.
pub fn replayed(
    s: State,
    requests: &mut [u64],
    selection: &[u64],
    results: &mut [u64],
    second: &mut [u64],
) -> State
    ensures { runs (state_view result) requests.new results.new second.new ≡ runs_of requests.old selection.now results.old second.old (state_view s) }
{
    let t = plan_by_value(start(s), requests, results);
    if t.number != 0 {
        return t;
    }
    flat::pin::pin(requests, results);
    let mut chosen = [0u64; MOST];
    let n = take::take(requests, selection, &mut chosen);
    let u = start(t);
    plan_by_value(u, &chosen[..n], second)
}

// The same on the state lent. DEMAND 3: where its conditions hold, the answer is 0, each record is the one it had, and the tables are the reservations and those rows.
pub fn replay(
    state: &mut State,
    requests: &mut [u64],
    selection: &[u64],
    results: &mut [u64],
    second: &mut [u64],
)
    ensures { (runs (state_view state.new) requests.new results.new second.new ≡ runs_of requests.old selection.now results.old second.old (state_view state.old))
        × (Replayable requests.old selection.now results.old second.old (state_view state.old)
        → Replays selection.now second.old (state_view state.old) (runs (state_view state.new) requests.new results.new second.new)) }
{
    *state = replayed(*state, requests, selection, results, second);
}
