// Owners that hold ranges, as the search sees them.
ghost use Rattle.std.specs.Prelude.{◌≡◌, true, ◌+◌, ◌^◌, ◌≤◌, ◌<◌};
ghost use Rattle.definition.specs.Tables.{row_limit, range_row, meets};
ghost use Rattle.tables.specs.Below.{first};
ghost use Rattle.tables.specs.Views.{range_of, range_at, ranges_view};
ghost use Rattle.search.specs.Asks.{need_of};
ghost use Rattle.search.specs.Rows.{range_rows, SomeRange, ranges_listed};
ghost use Rattle.search.specs.Steps.{Passes};

use super::{Need, Owners};
use bases::align_up;
use tables::Ranges;

// Whether row `k` is of the need's domain and overlaps lo..hi. Numbers are compared before domains: most rows end there.
#[tactic(auto, unfolding(definition::specs::Tables::meets, definition::specs::Tables::overlap, definition::specs::Tables::same_dom))]
pub fn is_in_way(owners: &Ranges, k: usize, need: Need, lo: u64, hi: u64) -> bool
    requires { k < row_limit }
    ensures { result ≡ meets (range_row (need_of need).dom lo hi 0) (range_of (range_at owners.now k)) }
{
    lo < owners.end[k]
        && owners.start[k] < hi
        && owners.controller[k] == need.controller
        && owners.its[k] == need.its
        && owners.device[k] == need.device
}

// The first row, in table order, of the domain that overlaps lo..hi.
pub fn first_overlap(owners: &Ranges, need: Need, lo: u64, hi: u64) -> Option<usize>
    requires { owners.now.n ≤ row_limit }
    ensures { result ≡ first (λ k. meets (range_row (need_of need).dom lo hi 0) (range_of (range_at owners.now k))) owners.now.n }
{
    (0..owners.n).find(|&k| is_in_way(owners, k, need, lo, hi))
}

// The base past owner row `k`, at most `stop`, where the row is in the way of the range at `b`; else `b`. It asks nothing of `stop`, and a need of no numbers is passed too.
pub fn past_row(owners: &Ranges, k: usize, need: Need, b: u64, stop: u64) -> u64
    requires { (k < row_limit) × (0 < need.alignment) × (b + need.size < 2 ^ 64) }
    ensures { Passes (range_of (range_at owners.now k)) (need_of need) b stop result }
{
    if is_in_way(owners, k, need, b, b + need.size) {
        align_up(owners.end[k], need.alignment, stop)
    } else {
        b
    }
}

impl Owners for Ranges {
    ghost view = { ranges_view };

    ghost row_at = { range_rows };

    ghost Serves = { SomeRange };

    ghost any_size = { λ _. true };

    ghost rows = { ranges_listed };

    ghost some = { λ n s. s };

    fn count(&self) -> usize {
        self.n
    }

    fn past(&self, k: usize, need: Need, b: u64, stop: u64) -> u64 {
        past_row(self, k, need, b, stop)
    }
}
