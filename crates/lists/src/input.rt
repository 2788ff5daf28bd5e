// The tables and the requests of the cases.
use crate::lending::MOST;
use choose::Choice;
use pool::{Call, Hold, Ids, PoolRange, Use};
use request::{Request, Want};
use tables::{DeviceId, EventId, Lpi, ROWS, State};

// The request that is in conflict stands here.
pub const CONFLICT: usize = 64;

// What is wrong with a case: nothing, a request that asks for what an earlier one has, an owner table with one row more than it can have.
#[derive(Clone, Copy, PartialEq, Eq)]
pub enum Flaw {
    Nothing,
    Conflict,
    Damaged,
}

// A pool of MSI numbers, all three from and to the same: from where LPIs start.
pub fn domain(from: u32, to: u32) -> PoolRange {
    PoolRange::Msi(
        1,
        2,
        Ids {
            start: DeviceId(from),
            end: DeviceId(to),
        },
        Ids {
            start: EventId(from),
            end: EventId(to),
        },
        Ids {
            start: Lpi(from),
            end: Lpi(to),
        },
    )
}

// The calls that make the tables: the pools that automatic requests search, those that fixed requests are allowed in, one reservation, start.
pub fn calls() -> [Call; 12] {
    [
        Call::Pool(Use::Automatic, PoolRange::Mmio(0, 2147483648)),
        Call::Pool(Use::Automatic, PoolRange::Pio(0, 32752)),
        Call::Pool(Use::Automatic, PoolRange::Input(1, 0, 4096)),
        Call::Pool(Use::Automatic, PoolRange::Host(0, 4096)),
        Call::Pool(Use::Automatic, domain(8192, 12288)),
        Call::Pool(Use::Fixed, PoolRange::Mmio(2147483648, 4294967296)),
        Call::Pool(Use::Fixed, PoolRange::Pio(40960, 65535)),
        Call::Pool(Use::Fixed, PoolRange::Input(1, 4096, 8192)),
        Call::Pool(Use::Fixed, PoolRange::Host(4096, 8192)),
        Call::Pool(Use::Fixed, domain(12288, 16384)),
        Call::Hold(7, Hold::Mmio(0, 4096)),
        Call::Start,
    ]
}

// The state as it is handed in.
pub fn state(flaw: Flaw) -> State {
    let mut s = tables::fresh();
    for c in calls() {
        s = pool::serve(s, c);
    }
    if flaw == Flaw::Damaged {
        s.owners.host.n = ROWS + 1;
    }
    s
}

// Five kinds in turn, five automatic and five fixed alternating.
pub fn chosen<T: Copy>(turn: u32, n: T) -> Choice<T> {
    if turn / 5 % 2 == 0 {
        Choice::Auto
    } else {
        Choice::Fixed(n)
    }
}

// A device, its events and LPIs, all from one number on.
pub fn msi(turn: u32, n: u32) -> Want {
    Want::Msi {
        controller: 1,
        its: 2,
        count: 4,
        device: chosen(turn, DeviceId(n)),
        event: chosen(turn, EventId(n)),
        lpi: chosen(turn, Lpi(n)),
    }
}

pub fn want(turn: u32) -> Want {
    let k = turn as u64;
    match turn % 5 {
        0 => Want::Mmio {
            size: 4096,
            alignment: 4096,
            choice: chosen(turn, 2147483648 + 4096 * k),
        },
        1 => Want::Pio {
            size: 16,
            alignment: 16,
            choice: chosen(turn, 40960 + 16 * k),
        },
        2 => Want::Input {
            controller: 1,
            trigger: 1,
            sharing: 0,
            choice: chosen(turn, 4096 + k),
        },
        3 => Want::Host {
            choice: chosen(turn, 4096 + k),
        },
        _ => msi(turn, 12288 + 4 * (turn % 1000)),
    }
}

pub fn request(turn: u32) -> Request {
    Request {
        requester: turn % 1000 + 1,
        slot: turn,
        want: want(turn),
    }
}

// All requests; the one in conflict asks for what an earlier one has.
pub fn requests(flaw: Flaw) -> [Request; MOST] {
    let mut list: [Request; MOST] = std::array::from_fn(|turn| request(turn as u32));
    if flaw == Flaw::Conflict {
        list[CONFLICT] = request(5);
    }
    list
}
