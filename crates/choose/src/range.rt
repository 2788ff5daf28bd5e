// Ranges: MMIO, PIO, host IRQs, devices, events and LPIs, by the need's kind.
ghost use Rattle.std.specs.Prelude.{◌≡◌, ◌≤◌, ◌<◌};
ghost use Rattle.definition.specs.Tables.{pool_limit, row_limit, used};
ghost use Rattle.tables.specs.Views.{pool_view, ranges_view};
ghost use Rattle.search.specs.Asks.{need_of};
ghost use Rattle.search.specs.Finds.{InOrder};
ghost use Rattle.choose.specs.Told.{choice_of, told, FixedIs, place_in};

use super::{Choice, Lent, Refusal, Run, allowed, automatic, detail, namespace};
use search::Need;
use search::range::first_overlap;
use tables::{Pool, Ranges};

// The base asked for: 6 where no fixed pool allows it, then 8 where a row is in the way, which names the first one's owner.
pub fn fixed(pools: &Pool, owners: &Ranges, need: Need, b: u64) -> Result<Run, Refusal>
    requires { (pools.now.n ≤ pool_limit) × (owners.now.n ≤ row_limit) × (0 < need.alignment) }
    ensures { FixedIs pools.now owners.now need b result }
{
    let run = allowed(pools, need, b)?;
    if let Some(k) = first_overlap(owners, need, run.start, run.end) {
        let owner = owners.owner[k];
        return Err(Refusal::Conflict(namespace(need.kind), owner, detail(need.kind)));
    }
    Ok(run)
}

// The range that a need is granted, whether or not a row is free for it.
pub fn place(tables: Lent<'_, Ranges>, need: Need, choice: Choice<u64>) -> Result<Run, Refusal>
    requires auto { InOrder tables.auto.now }
    requires fixed { tables.fixed.now.n ≤ pool_limit }
    requires rows { tables.owners.now.n ≤ row_limit }
    requires some { (0 < need.size) × (0 < need.alignment) }
    ensures { told (need_of need) result ≡ place_in (used (pool_view tables.entry.auto.now)) (used (pool_view tables.entry.fixed.now)) (used (ranges_view tables.entry.owners.now)) (need_of need) (choice_of choice) }
{
    match choice {
        Choice::Auto => automatic(tables.auto, tables.owners, need),
        Choice::Fixed(b) => fixed(tables.fixed, tables.owners, need, b),
    }
}
