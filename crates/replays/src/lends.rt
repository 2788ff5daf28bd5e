// The state of the test, lent to the function that is promised.
ghost use Rattle.std.specs.Prelude.{◌≡◌};
ghost use Rattle.tables.specs.Views.{state_view};
ghost use Rattle.replay.specs.Runs.{runs, runs_of};

use tables::State;

// Demand 3 by `replay::replay`, on a state by value: it is lent from here.
pub fn replay(
    mut s: State,
    requests: &mut [u64],
    selection: &[u64],
    results: &mut [u64],
    second: &mut [u64],
) -> State
    ensures { runs (state_view result) requests.new results.new second.new ≡ runs_of requests.old selection.now results.old second.old (state_view s) }
{
    replay::replay(&mut s, requests, selection, results, second);
    s
}
