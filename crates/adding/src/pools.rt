// Ranges for the pools: what a call adds to those of a use.
ghost use Rattle.adding.specs.Rows.{IsPoolRow};
ghost use Rattle.adding.specs.Adds.{PoolAsked};

use super::Adds;
use request::call::{PoolRange, Use};
use tables::{Kind, PoolRow};

// A range of the devices, events or LPIs of a controller and an ITS.
fn ids(controller: u32, its: u32, start: u32, end: u32) -> PoolRow
    ensures { IsPoolRow controller its start end result }
{
    PoolRow {
        controller,
        its,
        start: u64::from(start),
        end: u64::from(end),
    }
}

// A range for the pools of a use.
#[tactic(auto, using(crate::proofs::FitLaws::span_fits))]
pub fn of_pool(u: Use, p: PoolRange) -> Adds
    ensures { PoolAsked u p result }
{
    let none = PoolRow::default();
    match p {
        PoolRange::Mmio(start, end) => Adds::Range(u, Kind::Mmio, PoolRow { start, end, ..none }),
        PoolRange::Pio(start, end) => {
            let (start, end) = (u64::from(start), u64::from(end));
            Adds::Range(u, Kind::Pio, PoolRow { start, end, ..none })
        }
        PoolRange::Host(start, end) => Adds::Range(u, Kind::Host, PoolRow { start, end, ..none }),
        PoolRange::Input(controller, start, end) => Adds::Range(
            u,
            Kind::Input,
            PoolRow {
                controller,
                its: 0,
                start,
                end,
            },
        ),
        PoolRange::Msi(controller, its, devices, events, lpis) => Adds::Domain(
            u,
            ids(controller, its, devices.start.0, devices.end.0),
            ids(controller, its, events.start.0, events.end.0),
            ids(controller, 0, lpis.start.0, lpis.end.0),
        ),
    }
}
