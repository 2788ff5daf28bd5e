// Pool tables, of every kind.
ghost use Rattle.std.specs.Prelude.{◌≡◌, ltb};
ghost use Rattle.definition.specs.Tables.{pool_limit, same_dom, same_span, blank_span, in_order};
ghost use Rattle.tables.specs.Views.{span_of, pool_at};
ghost use Rattle.table_tests.specs.Tests.{good_pool, tidy_pool, sound_pool_in};
ghost use Rattle.table_tests.specs.PoolRule.{pool_tidy, pool_is, pool_clear};

use super::limits::Limits;
use super::table::{Rule, Table};
use tables::{POOL_ROWS, Pool, PoolRow};

impl Table for Pool {
    type Row = PoolRow;

    const SIZE: usize = POOL_ROWS;

    ghost SIZE = { pool_limit };

    ghost count = { λ t. t.n };

    ghost at = { pool_at };

    ghost blank = { λ r. same_span blank_span (span_of r) };

    ghost same = { λ a b. same_span (span_of a) (span_of b) };

    ghost tidy = { tidy_pool };

    ghost tidy_is = { pool_tidy };

    fn count(&self) -> usize {
        self.n
    }

    fn at(&self, k: usize) -> PoolRow {
        self.row(k)
    }

    #[tactic(auto, unfolding(definition::specs::Tables::same_span, definition::specs::Tables::same_dom))]
    fn blank(r: PoolRow) -> bool {
        // `==` would stop at the first number that is not 0: with `&` the compiler takes several rows at a time
        (0 == r.controller) & (0 == r.its) & ((0 == r.start) & (0 == r.end))
    }

    #[tactic(auto, unfolding(definition::specs::Tables::same_span, definition::specs::Tables::same_dom))]
    fn same(a: PoolRow, b: PoolRow) -> bool {
        a == b
    }
}

// A row keeps to its kind's limits and holds a number; rows of one domain are sorted by start, and none is there twice.
impl Rule<Pool> for Limits {
    ghost good = { λ l r. good_pool l (span_of r) };

    ghost fits = { λ l a b. in_order (span_of a) (span_of b) };

    ghost reach = { λ r. r.start };

    ghost beyond = { λ h r. ltb h r.start };

    ghost kin = { λ a b. same_dom (span_of a).dom (span_of b).dom };

    ghost sound = { sound_pool_in };

    ghost clear = { pool_clear };

    ghost sound_is = { pool_is };

    #[tactic(auto, unfolding(crate::specs::Tests::good_pool))]
    fn good(&self, r: PoolRow) -> bool {
        r.controller <= self.controller
            && r.its <= self.its
            && r.start < r.end
            && self.floor <= r.start
            && r.end <= self.top
    }

    fn fits(&self, a: PoolRow, b: PoolRow) -> bool {
        in_order(a, b)
    }

    fn fits_by_domain(&self, a: PoolRow, b: PoolRow) -> bool {
        in_order(a, b)
    }

    #[tactic(auto, unfolding(definition::specs::Tables::same_dom))]
    fn kin(a: PoolRow, b: PoolRow) -> bool {
        a.controller == b.controller && a.its == b.its
    }

    fn reach(r: PoolRow) -> u64 {
        r.start
    }

    fn beyond(high: u64, r: PoolRow) -> bool {
        high < r.start
    }
}

// Whether two rows are of two domains, or sorted by start, the earlier one first, and no exact duplicates.
#[tactic(auto, unfolding(definition::specs::Tables::in_order, definition::specs::Tables::same_span, definition::specs::Tables::same_dom))]
pub fn in_order(a: PoolRow, b: PoolRow) -> bool
    ensures { result ≡ in_order (span_of a) (span_of b) }
{
    // one by one: as one expression the compiler asks for both numbers of each row first
    if a.start < b.start {
        return true;
    }
    if a.controller != b.controller {
        return true;
    }
    if a.its != b.its {
        return true;
    }
    a.start == b.start && a.end != b.end
}
