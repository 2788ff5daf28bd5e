// Rows for the reservations: what a call has an owner hold.
ghost use Rattle.adding.specs.Rows.{IsRangeRow};
ghost use Rattle.adding.specs.Adds.{HoldAsked};

use super::Adds;
use insert::past;
use request::call::Hold;
use tables::{InputRow, Kind, RangeRow};

// A range of MMIO, ports or host IRQs.
fn plain(start: u64, end: u64, owner: u32) -> RangeRow
    ensures { IsRangeRow 0 0 0 start end owner result }
{
    RangeRow {
        start,
        end,
        owner,
        ..RangeRow::default()
    }
}

// A range of DeviceIDs, EventIDs or LPIs.
fn ids(controller: u32, its: u32, device: u32, start: u32, end: u32, owner: u32) -> RangeRow
    ensures { IsRangeRow controller its device start end owner result }
{
    RangeRow {
        controller,
        its,
        device,
        start: u64::from(start),
        end: u64::from(end),
        owner,
    }
}

// Something held by an owner. The input of a pair is Exclusive.
#[tactic(auto, using(crate::proofs::FitLaws::range_fits))]
pub fn of_hold(owner: u32, h: Hold) -> Adds
    ensures { HoldAsked owner h result }
{
    match h {
        Hold::Mmio(a, b) => Adds::Row(Kind::Mmio, plain(a, b, owner)),
        Hold::Pio(a, b) => Adds::Row(Kind::Pio, plain(u64::from(a), u64::from(b), owner)),
        Hold::Host(a, b) => Adds::Row(Kind::Host, plain(a, b, owner)),
        Hold::Input(controller, input, trigger, sharing) => Adds::Input(InputRow {
            controller,
            input,
            trigger,
            sharing,
            owner,
        }),
        Hold::Devices(c, its, x) => Adds::Row(
            Kind::Device,
            ids(c, its, 0, x.start.0, x.end.0, owner),
        ),
        Hold::Events(c, its, id, x) => Adds::Row(
            Kind::Event,
            ids(c, its, id.0, x.start.0, x.end.0, owner),
        ),
        Hold::Lpis(c, x) => Adds::Row(Kind::Lpi, ids(c, 0, 0, x.start.0, x.end.0, owner)),
        Hold::Pair(controller, input, trigger, irq) => Adds::Pair(
            InputRow {
                controller,
                input,
                trigger,
                sharing: 0,
                owner,
            },
            plain(irq, past(irq), owner),
        ),
    }
}
