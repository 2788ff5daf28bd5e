// Pool ranges and reservations of one table, once for every kind of range. After src/resources/pool/range.rs of axdevice 0.8.5, Apache-2.0, see NOTICE; changed.
#![tactic(auto)]

ghost use Rattle.std.specs.Prelude.{◌≡◌, suc, min, ◌≤◌, ◌<◌, T, IfOk};
ghost use Rattle.definition.specs.Base.{tell};
ghost use Rattle.definition.specs.Tables.{pool_limit, row_limit, top, same_span, blank_span, used, tidy};
ghost use Rattle.tables.specs.Below.{first};
ghost use Rattle.tables.specs.Views.{span_of, range_of, pool_at, pool_view, ranges_view};
ghost use Rattle.tables.specs.Sized.{SizedRanges};
ghost use Rattle.insert.specs.Places.{before, place_of, Opened};
ghost use Rattle.insert.specs.Answers.{refusal_of, number_of, telling, heard, admit_any, entered_or, reserve_any, fault_of, comes_before, earlier_of};

use table_tests::table::Table;
use tables::{POOL_ROWS, Pool, PoolRow, ROWS, RangeRow, Ranges};

pub mod wired;

// Why a call is refused; `Overlaps` names the owner of the row that is in the way.
#[derive(Clone, Copy, Debug, PartialEq, Eq)]
pub enum Refused {
    Malformed,
    BadInput,
    BadOwner,
    EmptyRange,
    Overlaps(u32),
    Full,
    Short,
    BadLpi,
    NotFound,
}

// The answer of a call.
pub type Reply = Result<(), Refused>;

impl Refused {
    // 01's number of it. (A method and no `From`: a proof reads its clause as it stands.)
    pub fn number(self) -> u64
        ensures { result ≡ number_of self }
    {
        match self {
            Refused::Malformed => 1,
            Refused::BadInput => 2,
            Refused::BadOwner => 3,
            Refused::EmptyRange => 4,
            Refused::Overlaps(_) => 5,
            Refused::Full => 9,
            Refused::Short => 11,
            Refused::BadLpi => 12,
            Refused::NotFound => 13,
        }
    }

    // The owner that it names, else 0.
    pub fn owner(self) -> u64
        ensures { result ≡ (tell 0 (refusal_of self)).owner }
    {
        match self {
            Refused::Overlaps(owner) => u64::from(owner),
            _ => 0,
        }
    }
}

// The end of the range of one number. The largest number has none: its range is empty.
pub fn past(x: u64) -> u64
    ensures { result ≡ min (suc x) (top 64) }
{
    x.saturating_add(1)
}

// What a range answers by itself: it is empty, or starts below its kind's `floor`.
#[tactic(auto, unfolding(crate::specs::Answers::fault_of))]
fn range_fault(start: u64, end: u64, floor: u64) -> Reply
    ensures { result ≡ fault_of start end floor }
{
    if end <= start {
        return Err(Refused::EmptyRange);
    }
    if start < floor {
        return Err(Refused::BadLpi);
    }
    Ok(())
}

// Whether refusal `a` comes before refusal `b`: in the order of their numbers, but an LPI that is too low comes directly after an empty range.
#[tactic(auto, unfolding(crate::specs::Answers::comes_before))]
fn comes_before(a: Refused, b: Refused) -> bool
    ensures { result ≡ comes_before (number_of a) (number_of b) }
{
    match (a, b) {
        (_, Refused::BadLpi) => a.number() <= Refused::EmptyRange.number(),
        (Refused::BadLpi, _) => Refused::EmptyRange.number() < b.number(),
        _ => a.number() < b.number(),
    }
}

// Of two answers the one whose turn comes first, and `a` where both have one number.
#[tactic(auto, unfolding(crate::specs::Answers::earlier_of))]
pub fn earlier(a: Reply, b: Reply) -> Reply
    ensures { result ≡ earlier_of a b }
{
    match (a, b) {
        (Ok(()), _) => b,
        (Err(x), Err(y)) if comes_before(y, x) => b,
        _ => a,
    }
}

// ---- pool ranges

// The used row that is `r`.
fn twin(t: &Pool, r: PoolRow) -> Option<usize>
    requires { t.now.n ≤ pool_limit }
    ensures { result ≡ first (λ k. same_span (span_of r) (span_of (pool_at t.now k))) t.now.n }
{
    (0..t.n).find(|&k| Pool::same(r, t.row(k)))
}

// Whether `r` goes before `other`: a row of its domain that starts later.
#[tactic(auto, unfolding(crate::specs::Places::before, definition::specs::Tables::same_dom))]
fn goes_before(r: PoolRow, other: PoolRow) -> bool
    ensures { result ≡ before (span_of r) (span_of other) }
{
    r.controller == other.controller && r.its == other.its && r.start < other.start
}

// Where a new row goes: before the first row of its domain that starts later, else behind the last used row.
fn place(t: &Pool, r: PoolRow) -> usize
    requires { t.now.n ≤ pool_limit }
    ensures { result ≡ place_of (first (λ k. before (span_of r) (span_of (pool_at t.now k))) t.now.n) t.now.n }
{
    (0..t.n).find(|&k| goes_before(r, t.row(k))).unwrap_or(t.n)
}

// `r` at row `at`, and each used row from there on one row up.
#[tactic(auto, using(crate::proofs::OpenLaws::shift_start, crate::proofs::OpenLaws::shift_step, crate::proofs::OpenLaws::shift_done))]
fn open_row(t: &mut Pool, at: usize, r: PoolRow)
    requires { (at ≤ t.old.n) × (t.old.n < pool_limit) }
    ensures { Opened t.old t.new at r }
{
    for k in (at..t.n).rev() {
        t.controller[k + 1] = t.controller[k];
        t.its[k + 1] = t.its[k];
        t.start[k + 1] = t.start[k];
        t.end[k + 1] = t.end[k];
    }
    t.controller[at] = r.controller;
    t.its[at] = r.its;
    t.start[at] = r.start;
    t.end[at] = r.end;
    t.n += 1;
}

// One pool range more, in its place. An exact duplicate adds no row, and a full table takes none.
#[tactic(auto, using(crate::proofs::InsertLaws::rows_within, crate::proofs::InsertLaws::place_le))]
pub fn insert_range(t: &mut Pool, r: PoolRow)
    requires { T (tidy pool_limit (same_span blank_span) (pool_view t.old)) }
    ensures { pool_view t.new ≡ entered_or (span_of r) (pool_view t.old) }
{
    if twin(t, r).is_some() || POOL_ROWS <= t.n {
        return;
    }
    let at = place(t, r);
    open_row(t, at, r);
}

// What adding `r`, of a kind whose ranges start at `floor` or above, answers. One that is there already is accepted.
#[tactic(auto, using(crate::proofs::InsertLaws::rows_within))]
pub fn refuse_pool(t: &Pool, floor: u64, r: PoolRow) -> Reply
    requires { T (tidy pool_limit (same_span blank_span) (pool_view t.now)) }
    ensures { heard result ≡ telling (admit_any floor (span_of r) (used (pool_view t.now))) }
{
    range_fault(r.start, r.end, floor)?;
    if twin(t, r).is_none() && POOL_ROWS <= t.n {
        return Err(Refused::Full);
    }
    Ok(())
}

// ---- reservations

// What a reservation of `r`, of a kind whose ranges start at `floor` or above, answers: beside what it is by itself, it overlaps a row, or none is free.
#[tactic(auto, using(crate::proofs::FirstLaws::hit_below))]
pub fn refuse_range(t: &Ranges, floor: u64, r: RangeRow) -> Reply
    requires { t.now.n ≤ row_limit }
    ensures told { heard result ≡ telling (reserve_any floor (range_of r) (used (ranges_view t.now))) }
    ensures room { IfOk result (λ _. SizedRanges t.now × (t.now.n < row_limit)) }
{
    if r.owner == 0 {
        return Err(Refused::BadOwner);
    }
    range_fault(r.start, r.end, floor)?;
    if let Some(k) = table_tests::range::first_overlap(t, r) {
        return Err(Refused::Overlaps(t.owner[k]));
    }
    if ROWS <= t.n {
        return Err(Refused::Full);
    }
    Ok(())
}
