// What the tables of one kind answer, read through references.
ghost use Rattle.tables.specs.Sized.{SizedRanges, SizedInputs};
ghost use Rattle.tables.specs.declared.Kind.TheVariants.{Input};
ghost use Rattle.adding.specs.Adds.{ranges_in, rows_in, inputs_in};
ghost use Rattle.adding.specs.Looks.{Tidy, Fit, Adding, pool_for, Tells, TellsInput};

use super::Adds;
use insert::Reply;
use request::call::Use;
use tables::{Inputs, Kind, Pool, PoolRow, Ranges};

// The pools of a use.
fn pool(auto: &Pool, fixed: &Pool, u: Use, floor: u64, range: PoolRow) -> Reply
    requires { Tidy auto.now × Tidy fixed.now }
    ensures { Adding (pool_for u auto.now fixed.now) floor range result }
{
    match u {
        Use::Automatic => insert::refuse_pool(auto, floor, range),
        Use::Fixed => insert::refuse_pool(fixed, floor, range),
    }
}

// The tables of a kind whose ranges start at `floor` or above. Those that the call has no row for accept.
pub fn range(kind: Kind, auto: &Pool, fixed: &Pool, held: &Ranges, floor: u64, adds: Adds) -> Reply
    requires { Fit auto.now fixed.now held.now.n }
    ensures sized { SizedRanges held.now }
    ensures tells { Tells auto.now fixed.now held.now floor (ranges_in adds kind) (rows_in adds kind) result }
{
    let _ = held.has_room(); // for its `sized`, which no list says by itself
    if let Some((u, range)) = adds.range(kind) {
        return pool(auto, fixed, u, floor, range);
    }
    if let Some(row) = adds.row(kind) {
        return insert::refuse_range(held, floor, row);
    }
    Ok(())
}

// .. those of inputs: another row, another rule.
pub fn input(auto: &Pool, fixed: &Pool, held: &Inputs, floor: u64, adds: Adds) -> Reply
    requires { Fit auto.now fixed.now held.now.n }
    ensures sized { SizedInputs held.now }
    ensures tells { TellsInput auto.now fixed.now held.now floor (ranges_in adds Input) (inputs_in adds) result }
{
    let _ = held.has_room();
    if let Some((u, range)) = adds.range(Kind::Input) {
        return pool(auto, fixed, u, floor, range);
    }
    if let Some(row) = adds.input() {
        return insert::wired::refuse_input(held, row);
    }
    Ok(())
}
