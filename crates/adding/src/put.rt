// The rows for the reservation tables: what a verdict has stored in each.
ghost use Rattle.std.specs.Prelude.{◌≡◌};
ghost use Rattle.adding.specs.Judged.{held_put_of, input_put_of};

use super::Verdict;
use tables::{InputRow, Kind, RangeRow};

// The row for a reservation table of ranges.
pub fn range(v: &Verdict, k: Kind) -> Option<RangeRow>
    ensures { result ≡ held_put_of v.now k }
{
    if v.accepted() { v.adds.row(k) } else { None }
}

// .. of inputs.
pub fn input(v: &Verdict) -> Option<InputRow>
    ensures { result ≡ input_put_of v.now }
{
    if v.accepted() { v.adds.input() } else { None }
}
