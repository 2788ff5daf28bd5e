// Reading back a row as plain numbers: the one table that a part and a kind name tells it as it is stored, through a reference. Nothing is judged, and no table is copied.
ghost use Rattle.std.specs.Prelude.{◌≡◌, ltb};
ghost use Rattle.std.proofs.Math.Option.{none};
ghost use Rattle.definition.specs.Tables.{pool_limit, row_limit};
ghost use Rattle.tables.specs.Views.{kind_of, pool_of, pool_view, ranges_view, inputs_view, holders_view, state_view};
ghost use Rattle.flat.specs.Read.{if_read};
ghost use Rattle.numbers.specs.Rows.{pool_row, holder_row, input_row};
ghost use Rattle.numbers.specs.Back.{pick, found_of, KindAt, FoundRange, row_in};

use tables::{Holders, Inputs, Kind, POOL_ROWS, Pool, Pools, RECORD, ROWS, Ranges, State};

// What is to be read, by its numbers: the part (0 is the last answer), the kind and the row.
#[derive(Clone, Copy, Debug, PartialEq, Eq)]
pub struct Which {
    pub part: u64,
    pub kind: u64,
    pub row: u64,
}

// The nine numbers of a row: the count of used rows, then controller, ITS, device, start, end, trigger, sharing, owner.
pub type Numbers = [u64; RECORD];

// ---- one table: the row that is asked for, if that is one of its own

// A row's place in a table of so many rows.
fn place(row: u64, rows: usize) -> Option<usize>
    ensures { result ≡ if_read (ltb row rows) row }
{
    (row < rows as u64).then_some(row as usize)
}

#[tactic(auto, using(crate::proofs::ReadLaws::not_told, crate::proofs::ReadLaws::pool_told))]
fn pool_row(t: &Pool, row: u64) -> Option<Numbers>
    ensures { found_of result ≡ pick (ltb row pool_limit) (pool_row (pool_view t.now) row) none }
{
    let r = t.row(place(row, POOL_ROWS)?);
    let (controller, its) = (u64::from(r.controller), u64::from(r.its));
    Some([t.n as u64, controller, its, 0, r.start, r.end, 0, 0, 0])
}

#[tactic(auto, using(crate::proofs::ReadLaws::not_told, crate::proofs::ReadLaws::range_told))]
fn range_row(t: &Ranges, row: u64) -> Option<Numbers>
    ensures { FoundRange (ltb row row_limit) (ranges_view t.now) row (found_of result) }
{
    let r = t.row(place(row, ROWS)?);
    let (controller, its, device) = (
        u64::from(r.controller),
        u64::from(r.its),
        u64::from(r.device),
    );
    let owner = u64::from(r.owner);
    Some([
        t.n as u64, controller, its, device, r.start, r.end, 0, 0, owner,
    ])
}

#[tactic(auto, using(crate::proofs::ReadLaws::not_told, crate::proofs::ReadLaws::input_told))]
fn input_row(t: &Inputs, row: u64) -> Option<Numbers>
    ensures { found_of result ≡ pick (ltb row row_limit) (input_row (inputs_view t.now) row) none }
{
    let r = t.row(place(row, ROWS)?);
    let (trigger, sharing) = (u64::from(r.trigger), u64::from(r.sharing));
    Some([
        t.n as u64,
        u64::from(r.controller),
        0,
        0,
        r.input,
        0,
        trigger,
        sharing,
        u64::from(r.owner),
    ])
}

// ---- the tables of a part, by the kind

// Kinds are numbered in the definition's order, from 1 on. (No `TryFrom`: number and kind are other crates' types.)
fn kind_at(number: u64) -> Option<Kind>
    ensures { KindAt number result }
{
    match number {
        1 => Some(Kind::Mmio),
        2 => Some(Kind::Pio),
        3 => Some(Kind::Input),
        4 => Some(Kind::Host),
        5 => Some(Kind::Device),
        6 => Some(Kind::Event),
        7 => Some(Kind::Lpi),
        _ => None,
    }
}

// The row of a kind's pool, and of its owners: two `match`es, since one over both would take its functions kind by kind.
fn pools_row(p: &Pools, kind: Kind, row: u64) -> Option<Numbers>
    ensures { found_of result ≡ pick (ltb row pool_limit) (pool_row (pool_view (pool_of p.now (kind_of kind))) row) none }
{
    match kind {
        Kind::Mmio => pool_row(&p.mmio, row),
        Kind::Pio => pool_row(&p.pio, row),
        Kind::Input => pool_row(&p.input, row),
        Kind::Host => pool_row(&p.host, row),
        Kind::Device => pool_row(&p.device, row),
        Kind::Event => pool_row(&p.event, row),
        Kind::Lpi => pool_row(&p.lpi, row),
    }
}

fn holders_row(h: &Holders, kind: Kind, row: u64) -> Option<Numbers>
    ensures { found_of result ≡ pick (ltb row row_limit) (holder_row (kind_of kind) (holders_view h.now (kind_of kind)) row) none }
{
    match kind {
        Kind::Mmio => range_row(&h.mmio, row),
        Kind::Pio => range_row(&h.pio, row),
        Kind::Input => input_row(&h.input, row),
        Kind::Host => range_row(&h.host, row),
        Kind::Device => range_row(&h.device, row),
        Kind::Event => range_row(&h.event, row),
        Kind::Lpi => range_row(&h.lpi, row),
    }
}

// ---- all tables

// The row that is asked for, where there is one.
#[tactic(auto, using(crate::proofs::FoundLaws::no_kind, crate::proofs::FoundLaws::no_part, crate::proofs::FoundLaws::in_auto, crate::proofs::FoundLaws::in_fixed, crate::proofs::FoundLaws::in_held, crate::proofs::FoundLaws::in_owners))]
pub fn row(s: &State, k: Which) -> Option<Numbers>
    ensures { found_of result ≡ row_in (state_view s.now) k.part k.kind k.row }
{
    let kind = kind_at(k.kind)?;
    match k.part {
        1 => pools_row(&s.auto, kind, k.row),
        2 => pools_row(&s.fixed, kind, k.row),
        3 => holders_row(&s.held, kind, k.row),
        4 => holders_row(&s.owners, kind, k.row),
        _ => None,
    }
}
