// For each kind, which rows a request is granted or why it is refused: tables are lent, and nothing is changed here.
#![tactic(auto)]

ghost use Rattle.std.specs.Prelude.{◌≡◌, ◌≤◌, ◌<◌};
ghost use Rattle.definition.specs.Tables.{pool_limit, row_limit, nature};
ghost use Rattle.tables.specs.Views.{kind_of};
ghost use Rattle.search.specs.Finds.{InOrder};
ghost use Rattle.choose.specs.Told.{DetailIs, AutomaticIs, AllowedIs};
ghost use Rattle.choose.specs.Ids.{plain_by};

use search::{Need, Owners};
use tables::{Id, Kind, Pool};

pub mod range; // range.rt: a fixed range, and the range that a need is granted
pub mod wired; // wired.rt: .. of inputs, with what they share

// The number asked for, or any. Not an Option: the definition has `auto` and `at b` (`choice_of`), and None would not say that any number will do.
#[derive(Clone, Copy, Debug, PartialEq, Eq)]
pub enum Choice<T> {
    Auto,
    Fixed(T),
}

impl<T: Id> Choice<T> {
    // A table is asked by the plain number.
    pub fn plain(self) -> Choice<u64>
        ensures { result ≡ plain_by T.number_of self }
    {
        match self {
            Choice::Auto => Choice::Auto,
            Choice::Fixed(id) => Choice::Fixed(u64::from(id.number())),
        }
    }
}

// Why a call is refused, and what the refusal names: a namespace; a namespace, an owner and a detail.
#[derive(Clone, Copy, Debug, PartialEq, Eq)]
pub enum Refusal {
    Malformed,
    BadInput,
    FixedNotAllowed(u32),
    Exhausted(u32),
    Conflict(u32, u32, u32),
    Full,
    Short,
}

// The tables of one kind, as a request sees them.
#[derive(Clone, Copy)]
pub struct Lent<'a, T> {
    pub auto: &'a Pool,
    pub fixed: &'a Pool,
    pub owners: &'a T,
}

// The range that is granted, from its first number up to its end.
#[derive(Clone, Copy, Debug, PartialEq, Eq)]
pub struct Run {
    pub start: u64,
    pub end: u64,
}

// The namespace that a refusal of a kind names.
pub fn namespace(kind: Kind) -> u32
    ensures { result ≡ (nature (kind_of kind)).namespace }
{
    match kind {
        Kind::Mmio => 1,
        Kind::Pio => 2,
        Kind::Input => 3,
        Kind::Host => 4,
        Kind::Device | Kind::Event => 5,
        Kind::Lpi => 6,
    }
}

// The detail of a conflict of two rows that carry no trigger.
#[tactic(auto, unfolding(definition::specs::Request::detail))]
pub fn detail(kind: Kind) -> u32
    ensures { DetailIs kind result }
{
    match kind {
        Kind::Mmio | Kind::Pio => 1,
        Kind::Input => 3,
        Kind::Host => 4,
        Kind::Device => 5,
        Kind::Event => 6,
        Kind::Lpi => 7,
    }
}

// The least free base: 7 where there is none.
pub fn automatic<T: Owners>(pools: &Pool, owners: &T, need: Need) -> Result<Run, Refusal>
    requires pools { InOrder pools.now }
    requires rows { (T.view owners.now).count ≤ row_limit }
    requires served { T.Serves need }
    ensures { AutomaticIs pools.now (T.view owners.now) need result }
{
    let Some(start) = search::find(pools, owners, need) else {
        return Err(Refusal::Exhausted(namespace(need.kind)));
    };
    let end = start + need.size;
    Ok(Run { start, end })
}

// The run at the base asked for: 6 where no fixed pool allows it.
pub fn allowed(fixed: &Pool, need: Need, start: u64) -> Result<Run, Refusal>
    requires { (fixed.now.n ≤ pool_limit) × (0 < need.alignment) }
    ensures { AllowedIs fixed.now need start result }
{
    if search::range_allowed(fixed, need, start) {
        Ok(Run {
            start,
            end: start + need.size,
        })
    } else {
        Err(Refusal::FixedNotAllowed(namespace(need.kind)))
    }
}
