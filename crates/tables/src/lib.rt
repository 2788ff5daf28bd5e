// The tables as columns: what the planner keeps, how a table starts, gains a row and is read. Used rows stand first.
#![tactic(auto)]

ghost use Rattle.std.specs.Prelude.{◌≡◌, ℕ, ◌<◌, ltb};
ghost use Rattle.definition.specs.Tables.{pool_limit, row_limit, nature};
ghost use Rattle.tables.specs.Views.{kind_of, same_of, pool, ranges, inputs, pool_at, range_at, input_at};
ghost use Rattle.tables.specs.Sized.{SizedRanges, SizedInputs};
ghost use Rattle.tables.specs.Whole.{fresh_pool, fresh_ranges, fresh_inputs, fresh_pools, fresh_holders, fresh_state};

// The sizes, each stated here alone: rows of a reservation or owner table, rows of a pool table, requests of a plan, numbers of a record.
pub const ROWS: usize = 256;

pub const POOL_ROWS: usize = 64;

pub const PLAN: usize = 256;

pub const RECORD: usize = 9;

// A pool table of any kind. A domain number that a kind does not use is 0 in every row.
#[repr(C)]
#[derive(Clone, Copy)]
pub struct Pool {
    pub n: usize,
    pub controller: [u32; POOL_ROWS],
    pub its: [u32; POOL_ROWS],
    pub start: [u64; POOL_ROWS],
    pub end: [u64; POOL_ROWS],
}

// A reservation or owner table of a kind whose rows hold ranges: every kind but inputs.
#[repr(C)]
#[derive(Clone, Copy)]
pub struct Ranges {
    pub n: usize,
    pub controller: [u32; ROWS],
    pub its: [u32; ROWS],
    pub device: [u32; ROWS],
    pub start: [u64; ROWS],
    pub end: [u64; ROWS],
    pub owner: [u32; ROWS],
}

// A reservation or owner table of inputs: one number a row, with its codes.
#[repr(C)]
#[derive(Clone, Copy)]
pub struct Inputs {
    pub n: usize,
    pub controller: [u32; ROWS],
    pub input: [u64; ROWS],
    pub trigger: [u32; ROWS],
    pub sharing: [u32; ROWS],
    pub owner: [u32; ROWS],
}

// The pool tables of one use, automatic or fixed.
#[repr(C)]
#[derive(Clone, Copy)]
pub struct Pools {
    pub mmio: Pool,
    pub pio: Pool,
    pub input: Pool,
    pub host: Pool,
    pub device: Pool,
    pub event: Pool,
    pub lpi: Pool,
}

// The reservation tables, or the owner tables.
#[repr(C)]
#[derive(Clone, Copy)]
pub struct Holders {
    pub mmio: Ranges,
    pub pio: Ranges,
    pub input: Inputs,
    pub host: Ranges,
    pub device: Ranges,
    pub event: Ranges,
    pub lpi: Ranges,
}

// All tables, and the five numbers of the last answer: plain numbers, as the C interface has them.
#[repr(C)]
#[derive(Clone, Copy)]
pub struct State {
    pub auto: Pools,
    pub fixed: Pools,
    pub held: Holders,
    pub owners: Holders,
    pub number: u64,
    pub index: u64,
    pub namespace: u64,
    pub owner: u64,
    pub detail: u64,
}

// The kinds, each with its tables.
#[derive(Clone, Copy, Debug, PartialEq, Eq)]
pub enum Kind {
    Mmio,
    Pio,
    Input,
    Host,
    Device,
    Event,
    Lpi,
}

// The number of a kind.
impl From<Kind> for u64 {
    ghost from_gives = { λ kind n. n ≡ (nature (kind_of kind)).number };

    fn from(kind: Kind) -> u64 {
        match kind {
            Kind::Mmio => 1,
            Kind::Pio => 2,
            Kind::Input => 3,
            Kind::Host => 4,
            Kind::Device => 5,
            Kind::Event => 6,
            Kind::Lpi => 7,
        }
    }
}

// Whether two kinds are one: the derived `==`, with the definition's word for it.
pub fn same_kind(one: Kind, other: Kind) -> bool
    ensures { result ≡ same_of one other }
{
    one == other
}

// A number of a device, an event or an LPI: three types, so that none can be passed for another.
pub trait Id {
    ghost of: { ℕ → Self };

    ghost number_of: { Self → ℕ };

    fn new(number: u32) -> Self
        ensures { result ≡ of number };

    fn number(self) -> u32
        ensures { result ≡ number_of self };
}

#[derive(Clone, Copy, Debug, PartialEq, Eq)]
pub struct DeviceId(pub u32);

#[derive(Clone, Copy, Debug, PartialEq, Eq)]
pub struct EventId(pub u32);

#[derive(Clone, Copy, Debug, PartialEq, Eq)]
pub struct Lpi(pub u32);

impl Id for DeviceId {
    ghost of = { λ n. record { 0 = n } };

    ghost number_of = { λ d. d.0 };

    fn new(number: u32) -> DeviceId {
        DeviceId(number)
    }

    fn number(self) -> u32 {
        self.0
    }
}

impl Id for EventId {
    ghost of = { λ n. record { 0 = n } };

    ghost number_of = { λ e. e.0 };

    fn new(number: u32) -> EventId {
        EventId(number)
    }

    fn number(self) -> u32 {
        self.0
    }
}

impl Id for Lpi {
    ghost of = { λ n. record { 0 = n } };

    ghost number_of = { λ l. l.0 };

    fn new(number: u32) -> Lpi {
        Lpi(number)
    }

    fn number(self) -> u32 {
        self.0
    }
}

// One row of each layout.
#[derive(Clone, Copy, Debug, Default, PartialEq, Eq)]
pub struct PoolRow {
    pub controller: u32,
    pub its: u32,
    pub start: u64,
    pub end: u64,
}

#[derive(Clone, Copy, Debug, Default, PartialEq, Eq)]
pub struct RangeRow {
    pub controller: u32,
    pub its: u32,
    pub device: u32,
    pub start: u64,
    pub end: u64,
    pub owner: u32,
}

#[derive(Clone, Copy, Debug, Default, PartialEq, Eq)]
pub struct InputRow {
    pub controller: u32,
    pub input: u64,
    pub trigger: u32,
    pub sharing: u32,
    pub owner: u32,
}

// ---- fresh tables: rows of zeros

pub fn fresh_pool() -> Pool
    ensures { result ≡ fresh_pool }
{
    Pool {
        n: 0,
        controller: [0u32; POOL_ROWS],
        its: [0u32; POOL_ROWS],
        start: [0u64; POOL_ROWS],
        end: [0u64; POOL_ROWS],
    }
}

pub fn fresh_ranges() -> Ranges
    ensures { result ≡ fresh_ranges }
{
    Ranges {
        n: 0,
        controller: [0u32; ROWS],
        its: [0u32; ROWS],
        device: [0u32; ROWS],
        start: [0u64; ROWS],
        end: [0u64; ROWS],
        owner: [0u32; ROWS],
    }
}

pub fn fresh_inputs() -> Inputs
    ensures { result ≡ fresh_inputs }
{
    Inputs {
        n: 0,
        controller: [0u32; ROWS],
        input: [0u64; ROWS],
        trigger: [0u32; ROWS],
        sharing: [0u32; ROWS],
        owner: [0u32; ROWS],
    }
}

pub fn fresh_pools() -> Pools
    ensures { result ≡ fresh_pools }
{
    let t = fresh_pool();
    Pools {
        mmio: t,
        pio: t,
        input: t,
        host: t,
        device: t,
        event: t,
        lpi: t,
    }
}

pub fn fresh_holders() -> Holders
    ensures { result ≡ fresh_holders }
{
    let t = fresh_ranges();
    let w = fresh_inputs();
    Holders {
        mmio: t,
        pio: t,
        input: w,
        host: t,
        device: t,
        event: t,
        lpi: t,
    }
}

pub fn fresh() -> State
    ensures { result ≡ fresh_state }
{
    let p = fresh_pools();
    let h = fresh_holders();
    State {
        auto: p,
        fixed: p,
        held: h,
        owners: h,
        number: 0,
        index: 0,
        namespace: 0,
        owner: 0,
        detail: 0,
    }
}

// ---- one row of a lent table, which is never copied to read it

impl Pool {
    pub fn row(&self, k: usize) -> PoolRow
        requires { k < pool_limit }
        ensures { result ≡ pool_at self.now k }
    {
        PoolRow {
            controller: self.controller[k],
            its: self.its[k],
            start: self.start[k],
            end: self.end[k],
        }
    }
}

impl Ranges {
    // Whether a row is free behind the last used one. (Every column that code holds has its full length: a list alone does not say so.)
    pub fn has_room(&self) -> bool
        ensures room { result ≡ ltb self.now.n row_limit }
        ensures sized { SizedRanges self.now }
    {
        self.n < ROWS
    }

    pub fn row(&self, k: usize) -> RangeRow
        requires { k < row_limit }
        ensures { result ≡ range_at self.now k }
    {
        RangeRow {
            controller: self.controller[k],
            its: self.its[k],
            device: self.device[k],
            start: self.start[k],
            end: self.end[k],
            owner: self.owner[k],
        }
    }
}

impl Inputs {
    // .. of inputs: one line for each layout, since `sized` names its columns.
    pub fn has_room(&self) -> bool
        ensures room { result ≡ ltb self.now.n row_limit }
        ensures sized { SizedInputs self.now }
    {
        self.n < ROWS
    }

    pub fn row(&self, k: usize) -> InputRow
        requires { k < row_limit }
        ensures { result ≡ input_at self.now k }
    {
        InputRow {
            controller: self.controller[k],
            input: self.input[k],
            trigger: self.trigger[k],
            sharing: self.sharing[k],
            owner: self.owner[k],
        }
    }
}
