// Which ranges of a verdict are stored in the pool tables of a use: all of a call that is accepted, and none of one that is refused.
ghost use Rattle.std.specs.Prelude.{◌≡◌};
ghost use Rattle.adding.specs.Judged.{idle_of, pool_put_of};

use super::{Adds, Verdict};
use request::call::Use;
use tables::{Kind, PoolRow};

// Whether the verdict has no range for the pools of a use.
pub fn idle(v: &Verdict, to: Use) -> bool
    ensures { result ≡ idle_of v.now.adds to }
{
    match v.adds {
        Adds::Range(u, _, _) | Adds::Domain(u, _, _, _) => u != to,
        _ => true,
    }
}

// The range for a pool table.
pub fn range(v: &Verdict, to: Use, k: Kind) -> Option<PoolRow>
    ensures { result ≡ pool_put_of v.now to k }
{
    match v.adds.range(k) {
        Some((u, r)) if u == to && v.accepted() => Some(r),
        _ => None,
    }
}
