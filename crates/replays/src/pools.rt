// Random tables: each automatic range lies inside a fixed one, and some of its head is reserved.
ghost use Rattle.std.specs.Prelude.{◌≤◌};

use crate::drawn::draw;
use pool::{Call, Hold, Ids, PoolRange, Use};
use tables::{DeviceId, EventId, Lpi, State};

// Where a pool begins, and how much longer it is than it must be.
pub fn head(seed: u32, i: u64) -> u64
    ensures { result ≤ 500 }
{
    draw(seed, 2000, i) % 501
}

pub fn long(seed: u32, i: u64) -> u64
    ensures { result ≤ 64 }
{
    draw(seed, 2001, i) % 65
}

// A pool of MSI numbers: DeviceIDs, EventIDs and LPIs, each from a number up to another.
pub fn domain(devices: [u32; 2], events: [u32; 2], lpis: [u32; 2]) -> PoolRange {
    let d = Ids {
        start: DeviceId(devices[0]),
        end: DeviceId(devices[1]),
    };
    let e = Ids {
        start: EventId(events[0]),
        end: EventId(events[1]),
    };
    let l = Ids {
        start: Lpi(lpis[0]),
        end: Lpi(lpis[1]),
    };
    PoolRange::Msi(1, 2, d, e, l)
}

pub fn msi(seed: u32) -> PoolRange {
    let a = head(seed, 5) as u32;
    let b = head(seed, 6) as u32;
    domain(
        [a, a + 8 + long(seed, 5) as u32],
        [b, b + 4 + long(seed, 6) as u32],
        [8192 + a, 8208 + a + 4 * long(seed, 7) as u32],
    )
}

// The pools that automatic requests search.
pub fn automatic(seed: u32) -> [PoolRange; 5] {
    let mmio = head(seed, 0) * 1048576;
    let pio = head(seed, 1) as u16 * 16;
    let input = head(seed, 2);
    let host = head(seed, 3);
    [
        PoolRange::Mmio(mmio, mmio + 524288 + long(seed, 0) * 65536),
        PoolRange::Pio(pio, pio + 32 + long(seed, 1) as u16 * 4),
        PoolRange::Input(1, input, input + 8 + long(seed, 2)),
        PoolRange::Host(host, host + 8 + long(seed, 3)),
        msi(seed),
    ]
}

// Those that fixed requests are allowed in.
pub fn fixed() -> [PoolRange; 5] {
    [
        PoolRange::Mmio(0, 4294967296),
        PoolRange::Pio(0, 65535),
        PoolRange::Input(1, 0, 4096),
        PoolRange::Host(0, 4096),
        domain([0, 16384], [0, 16384], [8192, 16384]),
    ]
}

// Three reservations, at the heads of automatic ranges.
pub fn kept(seed: u32) -> [Call; 3] {
    let mmio = head(seed, 0) * 1048576;
    let host = head(seed, 3);
    [
        Call::Hold(7, Hold::Mmio(mmio, mmio + 8192)),
        Call::Hold(8, Hold::Input(1, head(seed, 2), 1, 0)),
        Call::Hold(9, Hold::Host(host, host + 2)),
    ]
}

pub fn tables(seed: u32) -> State {
    let pools = automatic(seed)
        .into_iter()
        .map(|p| Call::Pool(Use::Automatic, p))
        .chain(fixed().into_iter().map(|p| Call::Pool(Use::Fixed, p)));
    let mut s = tables::fresh();
    for c in pools.chain(kept(seed)) {
        s = pool::serve(s, c);
    }
    s
}
