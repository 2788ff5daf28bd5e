// One request over the tables of seven kinds, lent: what it is granted, or why it is refused. Nothing is stored here.
#![tactic(auto)]

ghost use Rattle.std.specs.Prelude.{◌≡◌, true, T};
ghost use Rattle.definition.specs.Tables.{kinds};
ghost use Rattle.definition.specs.Request.{good_request};
ghost use Rattle.definition.specs.Calls.{sound};
ghost use Rattle.tables.specs.Views.{state_view};
ghost use Rattle.request.specs.Asked.{request_of};
ghost use Rattle.decide.specs.Outcome.{one_base, three_bases};
ghost use Rattle.decide.specs.Granted.{needing, msi_of};
ghost use Rattle.decide.specs.Kept.{Finds};

use choose::wired::InputNeed;
use choose::{Lent, Refusal};
use msi::{Msi, MsiIds, MsiRows};
use request::{Request, Want};
use search::Need;
use tables::{DeviceId, EventId, InputRow, Kind, Lpi, RangeRow, State};

pub mod look; // look.rt: what the tables of one kind give, if they have a free row

// The rows that are to be stored, each in the table of its kind.
#[derive(Clone, Copy, Debug, PartialEq, Eq)]
pub enum Rows {
    Mmio(RangeRow),
    Pio(RangeRow),
    Input(InputRow),
    Host(RangeRow),
    Msi(MsiRows),
}

// The first numbers of the rows that an accepted request was granted: a record is made of them. An MSI request has the three, any other the base.
#[derive(Clone, Copy, Debug, PartialEq, Eq)]
pub struct Bases {
    pub base: u64,
    pub device: DeviceId,
    pub event: EventId,
    pub lpi: Lpi,
}

// What is stored, and the first numbers of it.
#[derive(Clone, Copy, Debug, PartialEq, Eq)]
pub struct Granted {
    pub rows: Rows,
    pub bases: Bases,
}

// ---- needs, rows and first numbers

// A need of the whole machine, with no domain.
pub fn needing(kind: Kind, size: u64, alignment: u64, requester: u32) -> Need
    ensures { result ≡ needing kind size alignment requester }
{
    Need {
        kind,
        controller: 0,
        its: 0,
        device: 0,
        size,
        alignment,
        requester,
    }
}

// One row, from its first number.
pub fn one_row(rows: Rows, base: u64) -> Granted
    ensures { result ≡ record { rows = rows; bases = one_base base } }
{
    let bases = Bases {
        base,
        device: DeviceId(0),
        event: EventId(0),
        lpi: Lpi(0),
    };
    Granted { rows, bases }
}

pub fn three_bases(ids: MsiIds) -> Bases
    ensures { result ≡ three_bases ids.device ids.event ids.lpi }
{
    Bases {
        base: 0,
        device: ids.device,
        event: ids.event,
        lpi: ids.lpi,
    }
}

// ---- one request

// A device, its events and LPIs.
fn find_msi(s: &State, r: Request, m: Msi) -> Result<Granted, Refusal>
    requires sound { T (sound kinds (state_view s.now)) }
    requires good { good_request (request_of r) ≡ true }
    requires want { r.want ≡ msi_of m }
    requires requester { m.requester ≡ r.requester }
    ensures { Finds s.now (request_of r) result }
{
    let devices = Lent {
        auto: &s.auto.device,
        fixed: &s.fixed.device,
        owners: &s.owners.device,
    };
    let events = Lent {
        auto: &s.auto.event,
        fixed: &s.fixed.event,
        owners: &s.owners.event,
    };
    let lpis = Lent {
        auto: &s.auto.lpi,
        fixed: &s.fixed.lpi,
        owners: &s.owners.lpi,
    };
    let ids = msi::find(devices, events, lpis, m)?;
    let rows = Rows::Msi(msi::rows(m, ids));
    let bases = three_bases(ids);
    Ok(Granted { rows, bases })
}

// The rows of a good request, by its kind.
fn find_good(s: &State, r: Request) -> Result<Granted, Refusal>
    requires sound { T (sound kinds (state_view s.now)) }
    requires good { good_request (request_of r) ≡ true }
    ensures { Finds s.now (request_of r) result }
{
    let requester = r.requester;
    match r.want {
        Want::Mmio {
            size,
            alignment,
            choice,
        } => {
            let tables = Lent {
                auto: &s.auto.mmio,
                fixed: &s.fixed.mmio,
                owners: &s.owners.mmio,
            };
            let need = needing(Kind::Mmio, size, alignment, requester);
            let row = look::range(tables, need, choice)?;
            Ok(one_row(Rows::Mmio(row), row.start))
        }
        Want::Pio {
            size,
            alignment,
            choice,
        } => {
            let tables = Lent {
                auto: &s.auto.pio,
                fixed: &s.fixed.pio,
                owners: &s.owners.pio,
            };
            let need = needing(Kind::Pio, size, alignment, requester);
            let row = look::range(tables, need, choice)?;
            Ok(one_row(Rows::Pio(row), row.start))
        }
        Want::Input {
            controller,
            trigger,
            sharing,
            choice,
        } => {
            let tables = Lent {
                auto: &s.auto.input,
                fixed: &s.fixed.input,
                owners: &s.owners.input,
            };
            let need = InputNeed {
                controller,
                trigger,
                sharing,
                requester,
            };
            let row = look::input(tables, need, choice)?;
            Ok(one_row(Rows::Input(row), row.input))
        }
        Want::Host { choice } => {
            let tables = Lent {
                auto: &s.auto.host,
                fixed: &s.fixed.host,
                owners: &s.owners.host,
            };
            let need = needing(Kind::Host, 1, 1, requester);
            let row = look::range(tables, need, choice)?;
            Ok(one_row(Rows::Host(row), row.start))
        }
        Want::Msi {
            controller,
            its,
            count,
            device,
            event,
            lpi,
        } => find_msi(
            s,
            r,
            Msi {
                controller,
                its,
                count,
                requester,
                device,
                event,
                lpi,
            },
        ),
    }
}

// What makes no sense is bad input; else the tables of its kind decide.
pub fn find(s: &State, r: Request) -> Result<Granted, Refusal>
    requires { T (sound kinds (state_view s.now)) }
    ensures { Finds s.now (request_of r) result }
{
    if request::good_request(r) {
        find_good(s, r)
    } else {
        Err(Refusal::BadInput)
    }
}
