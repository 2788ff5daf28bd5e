// Reservation and owner tables whose rows hold ranges: every kind but inputs.
ghost use Rattle.std.specs.Prelude.{◌≡◌, ◌≤◌, leb};
ghost use Rattle.definition.specs.Tables.{row_limit, overlap, same_dom, same_row, meets};
ghost use Rattle.tables.specs.Below.{first};
ghost use Rattle.tables.specs.Views.{range_of, range_at};
ghost use Rattle.table_tests.specs.Tests.{blank_range, good_range, apart, tidy_ranges, sound_ranges_in, holders_in};
ghost use Rattle.table_tests.specs.RangeRule.{ranges_tidy, ranges_is, range_clear};

use super::limits::Limits;
use super::table::{self, Rule, Table};
use tables::{ROWS, RangeRow, Ranges};

impl Table for Ranges {
    type Row = RangeRow;

    const SIZE: usize = ROWS;

    ghost SIZE = { row_limit };

    ghost count = { λ t. t.n };

    ghost at = { range_at };

    ghost blank = { λ r. same_row blank_range (range_of r) };

    ghost same = { λ a b. same_row (range_of a) (range_of b) };

    ghost tidy = { tidy_ranges };

    ghost tidy_is = { ranges_tidy };

    fn count(&self) -> usize {
        self.n
    }

    fn at(&self, k: usize) -> RangeRow {
        self.row(k)
    }

    #[tactic(auto, unfolding(definition::specs::Tables::same_row, definition::specs::Tables::same_dom))]
    fn blank(r: RangeRow) -> bool {
        // `==` would stop at the first number that is not 0: with `&` the compiler takes several rows at a time
        (0 == r.controller)
            & (0 == r.its)
            & (0 == r.device)
            & ((0 == r.start) & (0 == r.end) & (0 == r.owner))
    }

    #[tactic(auto, unfolding(definition::specs::Tables::same_row, definition::specs::Tables::same_dom))]
    fn same(a: RangeRow, b: RangeRow) -> bool {
        a == b
    }
}

// A row keeps to its kind's limits, holds a number and has an owner; no two rows meet.
impl Rule<Ranges> for Limits {
    ghost good = { λ l r. good_range l (range_of r) };

    ghost fits = { λ l a b. apart (range_of a) (range_of b) };

    ghost reach = { λ r. r.end };

    ghost beyond = { λ h r. leb h r.start };

    ghost kin = { λ a b. same_dom (range_of a).dom (range_of b).dom };

    ghost sound = { sound_ranges_in };

    ghost clear = { range_clear };

    ghost sound_is = { ranges_is };

    #[tactic(auto, unfolding(crate::specs::Tests::good_range))]
    fn good(&self, r: RangeRow) -> bool {
        r.controller <= self.controller
            && r.its <= self.its
            && r.device <= self.device
            && r.start < r.end
            && self.floor <= r.start
            && r.end <= self.top
            && 0 < r.owner
    }

    fn fits(&self, a: RangeRow, b: RangeRow) -> bool {
        !rows_meet(a, b)
    }

    #[tactic(auto, unfolding(definition::specs::Tables::meets, definition::specs::Tables::same_dom))]
    fn fits_by_domain(&self, a: RangeRow, b: RangeRow) -> bool {
        // one by one, and devices first, by which most events differ: as one expression the compiler begins with another number
        if a.device != b.device {
            return true;
        }
        if a.its != b.its {
            return true;
        }
        if a.controller != b.controller {
            return true;
        }
        !ranges_overlap(a.start, a.end, b.start, b.end)
    }

    fn kin(a: RangeRow, b: RangeRow) -> bool {
        same_domain(a, b)
    }

    fn reach(r: RangeRow) -> u64 {
        r.end
    }

    fn beyond(high: u64, r: RangeRow) -> bool {
        high <= r.start
    }
}

// Whether two ranges have a number in common.
#[tactic(auto, unfolding(definition::specs::Tables::overlap))]
pub fn ranges_overlap(start: u64, end: u64, other_start: u64, other_end: u64) -> bool
    ensures { result ≡ overlap start end other_start other_end }
{
    start < other_end && other_start < end
}

// Whether two rows have their domain in common.
#[tactic(auto, unfolding(definition::specs::Tables::same_dom))]
pub fn same_domain(a: RangeRow, b: RangeRow) -> bool
    ensures { result ≡ same_dom (range_of a).dom (range_of b).dom }
{
    a.controller == b.controller && a.its == b.its && a.device == b.device
}

// Whether two rows have a number and their domain in common. The numbers are the quicker test.
#[tactic(auto, unfolding(definition::specs::Tables::meets))]
pub fn rows_meet(a: RangeRow, b: RangeRow) -> bool
    ensures { result ≡ meets (range_of a) (range_of b) }
{
    if !ranges_overlap(a.start, a.end, b.start, b.end) {
        return false;
    }
    same_domain(a, b)
}

// The first used row, in table order, that meets `r`.
pub fn first_overlap(t: &Ranges, r: RangeRow) -> Option<usize>
    requires { t.now.n ≤ row_limit }
    ensures { result ≡ first (λ k. meets (range_of r) (range_of (range_at t.now k))) t.now.n }
{
    (0..t.n).find(|&k| rows_meet(r, t.row(k)))
}

// Whether reservations and owners are sound, and the owners begin with the reservations. The reservations then stand among the owners, so the test of the owners' pairs serves both.
#[tactic(auto, using(crate::proofs::BeginLaws::holders_begin, crate::proofs::BeginLaws::holders_unsound, crate::proofs::BeginLaws::holders_untidy))]
pub fn holders_sound(l: &Limits, held: &Ranges, owners: &Ranges) -> bool
    ensures { result ≡ holders_in l.now held.now owners.now }
{
    table::sound(l, owners) && table::tidy(held) && table::begins_with(held, owners)
}
