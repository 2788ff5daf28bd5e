// A call: what a line of a text or a list of numbers says.
use super::Request;
use tables::{DeviceId, EventId, Lpi};

// Which pools a range is added to: those that automatic requests search, or those that fixed requests are allowed in.
#[derive(Clone, Copy, Debug, PartialEq, Eq)]
pub enum Use {
    Automatic,
    Fixed,
}

// A half-open range of DeviceIDs, EventIDs or LPIs, which cannot be passed for one another.
#[derive(Clone, Copy, Debug, PartialEq, Eq)]
pub struct Ids<T> {
    pub start: T,
    pub end: T,
}

pub type Devices = Ids<DeviceId>;

pub type Events = Ids<EventId>;

pub type Lpis = Ids<Lpi>;

// What a pool call adds. Its numbers stand in the order of the program's line.
#[derive(Clone, Copy, Debug, PartialEq, Eq)]
pub enum PoolRange {
    Mmio(u64, u64),
    Pio(u16, u16),
    Host(u64, u64),
    Input(u32, u64, u64),
    Msi(u32, u32, Devices, Events, Lpis),
}

// What a reservation holds: an input with its trigger and sharing, a pair with its trigger and host IRQ.
#[derive(Clone, Copy, Debug, PartialEq, Eq)]
pub enum Hold {
    Mmio(u64, u64),
    Pio(u16, u16),
    Host(u64, u64),
    Input(u32, u64, u32, u32),
    Devices(u32, u32, Devices),
    Events(u32, u32, DeviceId, Events),
    Lpis(u32, Lpis),
    Pair(u32, u64, u32, u64),
}

// A range for the pools of a use, something held by an owner, a start, a request. `Bad`: a line of no form, or numbers that cannot be read. (Not an Option of a call: `reader::read_line` promises of every line which call it is.)
#[derive(Clone, Copy, Debug, PartialEq, Eq)]
pub enum Call {
    Pool(Use, PoolRange),
    Hold(u32, Hold),
    Start,
    Want(Request),
    Bad,
}
