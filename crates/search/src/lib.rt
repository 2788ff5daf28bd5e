// The searches: over a pool table and a table of owners, which are lent and not changed. One search serves owners that hold ranges and owners that hold inputs.
#![tactic(auto)]

ghost use Rattle.std.specs.Prelude.{◌≡◌, Bool, false, ℕ, ◌+◌, ◌^◌, ◌%◌, ◌≤◌, ◌<◌};
ghost use Rattle.definition.specs.Base.{any_of};
ghost use Rattle.definition.specs.Tables.{used, pool_limit, row_limit, nature, Row, Table, range_row, meets};
ghost use Rattle.definition.specs.Request.{one_bit, holds, allowed};
ghost use Rattle.tables.specs.Below.{listed, first};
ghost use Rattle.tables.specs.Views.{kind_of, span_of, pool_at, range_of, range_at, pool_view};
ghost use Rattle.search.specs.declared.Need.{Need as Asked};
ghost use Rattle.search.specs.Asks.{need_of};
ghost use Rattle.search.specs.Rows.{Stepped};
ghost use Rattle.search.specs.Steps.{Bases, Passes, Steps};
ghost use Rattle.search.specs.Finds.{InOrder, Finds};

use bases::{align_up, bases_below};
use tables::{Kind, Pool, Ranges};

pub mod input; // input.rt: owners that hold inputs
pub mod range; // range.rt: owners that hold ranges

// What a request needs of one table. A domain number that the kind does not use is 0.
#[derive(Clone, Copy, Debug, PartialEq, Eq)]
pub struct Need {
    pub kind: Kind,
    pub controller: u32,
    pub its: u32,
    pub device: u32,
    pub size: u64,
    pub alignment: u64,
    pub requester: u32,
}

// A table of owners, as a search sees it: rows that are in the way of a base, and where the search goes on behind one.
pub trait Owners {
    // The table as the definition's, its rows by their index, and what a search may be asked.
    ghost view: { Self → Table Row };

    ghost row_at: { Self → ℕ → Row };

    ghost Serves: { Asked → Type 0 };

    // The needs for which a row is passed at any alignment, whatever their size: they need not be served.
    ghost any_size: { Asked → Bool } = { λ _. false };

    fn count(&self) -> usize
        ensures { result ≡ (view self.now).count };

    // The base past row `k`, at most `stop`, where the row is in the way of the range at `b`; else `b`.
    fn past(&self, k: usize, need: Need, b: u64, stop: u64) -> u64
        requires used { k < row_limit }
        requires served { Stepped Serves any_size need }
        requires below { (b < stop) × (stop + need.size ≤ 2 ^ 64) }
        ensures { Passes (row_at self.now k) (need_of need) b stop result };

    ghost rows: { (t : Self) → (view t).count ≤ row_limit → used (view t) ≡ listed (row_at t) (view t).count };

    ghost some: { (n : Asked) → Serves n → (0 < n.size) × (0 < n.alignment) };
}

// Whether exactly one bit is set: what an alignment must be.
pub fn one_bit(a: u64) -> bool
    ensures { result ≡ one_bit 64 a }
{
    a.count_ones() == 1
}

// The first base too high for pool row `k`: 0 where none fits, and where the row is of another domain.
pub fn bases_of(pools: &Pool, k: usize, need: Need) -> u64
    requires { (k < pool_limit) × (0 < need.size) }
    ensures { Bases (need_of need) (span_of (pool_at pools.now k)) result }
{
    if pools.controller[k] == need.controller && pools.its[k] == need.its {
        bases_below(pools.end[k], need.size)
    } else {
        0
    }
}

// The next base to try where the range at base `c` is not free, at most `stop`. One pass over the owners: each that is in the way puts the base past its end, and the rows behind it are held to that one.
pub fn next_base<T: Owners>(owners: &T, need: Need, c: u64, stop: u64) -> Option<u64>
    requires rows { (T.view owners.now).count ≤ row_limit }
    requires served { Stepped T.Serves T.any_size need }
    requires base { (c < stop) × (c % need.alignment ≡ 0) × (stop + need.size ≤ 2 ^ 64) }
    ensures { Steps (T.row_at owners.now) (T.view owners.now).count (need_of need) c stop result }
{
    let mut b = c;
    for k in 0..owners.count() {
        b = owners.past(k, need, b, stop);
        if stop <= b {
            return Some(b);
        }
    }
    if b == c { None } else { Some(b) }
}

// The least aligned base whose range lies in one automatic pool row of the domain and overlaps no owner row of the domain. The base that is found leaves both walks at once, as 01 has it.
pub fn find<T: Owners>(pools: &Pool, owners: &T, need: Need) -> Option<u64>
    requires pools { InOrder pools.now }
    requires rows { (T.view owners.now).count ≤ row_limit }
    requires served { T.Serves need }
    ensures { Finds pools.now (T.view owners.now) need result }
{
    'found: {
        for i in 0..pools.n {
            let stop = bases_of(pools, i, need);
            let mut c = align_up(pools.start[i], need.alignment, stop);
            // not a `for`: the owners say where the next base may be
            while c < stop {
                let Some(next) = next_base(owners, need, c, stop) else {
                    break 'found Some(c);
                };
                c = next;
            }
        }
        None
    }
}

// The largest number of a kind's width.
pub fn limit(kind: Kind) -> u64
    ensures { result ≡ (nature (kind_of kind)).top }
{
    match kind {
        Kind::Mmio | Kind::Input | Kind::Host => u64::MAX,
        Kind::Pio => 65535,
        Kind::Device | Kind::Event | Kind::Lpi => 4294967295,
    }
}

// Whether pool row `k` is of the domain and holds all of b..e. Numbers are compared before domains.
#[tactic(auto, unfolding(definition::specs::Request::holds, definition::specs::Tables::same_dom))]
pub fn is_holding(pools: &Pool, k: usize, need: Need, b: u64, e: u64) -> bool
    requires { (k < pool_limit) × (e ≡ b + need.size) }
    ensures { result ≡ holds (need_of need) b (span_of (pool_at pools.now k)) }
{
    pools.start[k] <= b
        && e <= pools.end[k]
        && pools.controller[k] == need.controller
        && pools.its[k] == need.its
}

// Whether one pool row of the domain holds all of b..e.
pub fn held_by_one(pools: &Pool, need: Need, b: u64, e: u64) -> bool
    requires { (pools.now.n ≤ pool_limit) × (e ≡ b + need.size) }
    ensures { result ≡ any_of (holds (need_of need) b) (used (pool_view pools.now)) }
{
    (0..pools.n).any(|k| is_holding(pools, k, need, b, e))
}

// Whether a fixed request may ask for base `b`: aligned, its end within the width, held by one fixed pool row.
#[tactic(auto, using(crate::proofs::AllowedLaws::askew, crate::proofs::AllowedLaws::high, crate::proofs::AllowedLaws::by_pool))]
pub fn range_allowed(pools: &Pool, need: Need, b: u64) -> bool
    requires { (pools.now.n ≤ pool_limit) × (0 < need.alignment) }
    ensures { result ≡ allowed (used (pool_view pools.now)) (need_of need) b }
{
    if b % need.alignment != 0 {
        return false;
    }
    let most = limit(need.kind);
    if most < need.size || most - need.size < b {
        return false;
    }
    held_by_one(pools, need, b, b + need.size)
}
