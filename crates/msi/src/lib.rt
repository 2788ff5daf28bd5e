// An MSI request: a device, then a run of its events, then a run of LPIs. What each of the three tables is asked, and what comes of all three: tables are lent, and nothing is changed here.
#![tactic(auto)]

ghost use Rattle.std.specs.Prelude.{◌≡◌, ◌≤◌, ◌<◌, IfOk};
ghost use Rattle.msi.specs.Msi.{device_need, event_need, lpi_need, narrowed, chained, row_from, rows_of};
ghost use Rattle.tables.specs.Sized.{SizedRanges};
ghost use Rattle.msi.specs.Finds.{Ready, EventsStand, LpisAre, Found, RoomIs};
ghost use Rattle.definition.specs.Tables.{device as devices_kind, event as events_kind, lpi as lpis_kind};

use choose::range::place;
use choose::{Choice, Lent, Refusal, Run};
use search::Need;
use tables::{DeviceId, EventId, Id, Kind, Lpi, ROWS, RangeRow, Ranges};

const TOP_32: u64 = 4294967295;

// What an MSI request asks: `count` events of one device of an ITS, and as many LPIs of its controller.
#[derive(Clone, Copy, Debug, PartialEq, Eq)]
pub struct Msi {
    pub controller: u32,
    pub its: u32,
    pub count: u32,
    pub requester: u32,
    pub device: Choice<DeviceId>,
    pub event: Choice<EventId>,
    pub lpi: Choice<Lpi>,
}

// The three first numbers that are granted.
#[derive(Clone, Copy, Debug, PartialEq, Eq)]
pub struct MsiIds {
    pub device: DeviceId,
    pub event: EventId,
    pub lpi: Lpi,
}

// The row of each of the three tables.
#[derive(Clone, Copy, Debug, PartialEq, Eq)]
pub struct MsiRows {
    pub device: RangeRow,
    pub event: RangeRow,
    pub lpi: RangeRow,
}

// ---- what each table is asked

// A DeviceID of the ITS, exclusive: one number.
pub fn device_need(m: Msi) -> Need
    ensures { result ≡ device_need m }
{
    Need {
        kind: Kind::Device,
        controller: m.controller,
        its: m.its,
        device: 0,
        size: 1,
        alignment: 1,
        requester: m.requester,
    }
}

// A run of `count` events of the device.
pub fn event_need(m: Msi, device: DeviceId) -> Need
    ensures { result ≡ event_need m device }
{
    Need {
        kind: Kind::Event,
        controller: m.controller,
        its: m.its,
        device: device.0,
        size: u64::from(m.count),
        alignment: 1,
        requester: m.requester,
    }
}

// A run of `count` LPIs of the controller, whatever the ITS.
pub fn lpi_need(m: Msi) -> Need
    ensures { result ≡ lpi_need m }
{
    Need {
        kind: Kind::Lpi,
        controller: m.controller,
        its: 0,
        device: 0,
        size: u64::from(m.count),
        alignment: 1,
        requester: m.requester,
    }
}

// ---- what a table's answer means

// A number as one of 32 bits: what sound tables give is one.
pub fn narrow(b: u64) -> u32
    ensures { result ≡ narrowed b }
{
    if b <= TOP_32 { b as u32 } else { 0 }
}

// The first number of a run.
pub fn first_of<T: Id>(run: Run) -> T
    ensures { result ≡ T.of (narrowed run.start) }
{
    T::new(narrow(run.start))
}

// ---- what comes of all three

// What stands if each of the three tables has a free row: 9 comes last.
pub fn with_room(
    ids: MsiIds,
    devices: &Ranges,
    events: &Ranges,
    lpis: &Ranges,
) -> Result<MsiIds, Refusal>
    ensures room { RoomIs ids devices.now.n events.now.n lpis.now.n result }
    ensures devices { SizedRanges devices.now }
    ensures events { SizedRanges events.now }
    ensures lpis { SizedRanges lpis.now }
{
    let device = devices.has_room();
    let event = events.has_room();
    let lpi = lpis.has_room();
    if device && event && lpi {
        Ok(ids)
    } else {
        Err(Refusal::Full)
    }
}

// The refusal of the device, then of its events, then of the LPIs, then Full: of three answers that are there already, whatever tables they are of.
pub fn chain(
    first: Result<DeviceId, Refusal>,
    second: Result<EventId, Refusal>,
    third: Result<Lpi, Refusal>,
    devices: usize,
    events: usize,
    lpis: usize,
) -> Result<MsiIds, Refusal>
    ensures { result ≡ chained first second third devices events lpis }
{
    match first {
        Err(y) => Err(y),
        Ok(device) => match second {
            Err(y) => Err(y),
            Ok(event) => match third {
                Err(y) => Err(y),
                Ok(lpi) => {
                    if devices < ROWS && events < ROWS && lpis < ROWS {
                        Ok(MsiIds { device, event, lpi })
                    } else {
                        Err(Refusal::Full)
                    }
                }
            },
        },
    }
}

// The third turn, which comes only where the device's run of events stands: till then no LPI is looked for.
fn lpis_behind(
    events: Lent<'_, Ranges>,
    run: Run,
    lpis: Lent<'_, Ranges>,
    m: Msi,
    device: DeviceId,
) -> Result<Run, Refusal>
    requires lpis { Ready lpis_kind lpis.auto.now lpis.fixed.now lpis.owners.now }
    requires some { 0 < m.count }
    requires stands { EventsStand events.auto.now events.fixed.now events.owners.now m device run }
    ensures { LpisAre lpis.entry.auto.now lpis.entry.fixed.now lpis.entry.owners.now m result }
{
    place(lpis, lpi_need(m), m.lpi.plain())
}

// The refusal of the device, then of its events, then of the LPIs, then Full. Behind a refusal nothing is looked at.
pub fn find(
    devices: Lent<'_, Ranges>,
    events: Lent<'_, Ranges>,
    lpis: Lent<'_, Ranges>,
    m: Msi,
) -> Result<MsiIds, Refusal>
    requires devices { Ready devices_kind devices.auto.now devices.fixed.now devices.owners.now }
    requires events { Ready events_kind events.auto.now events.fixed.now events.owners.now }
    requires lpis { Ready lpis_kind lpis.auto.now lpis.fixed.now lpis.owners.now }
    requires some { 0 < m.count }
    ensures found { Found devices.entry.auto.now devices.entry.fixed.now devices.entry.owners.now events.entry.auto.now events.entry.fixed.now events.entry.owners.now lpis.entry.auto.now lpis.entry.fixed.now lpis.entry.owners.now m result }
    ensures sized { IfOk result (λ _. SizedRanges devices.entry.owners.now × (SizedRanges events.entry.owners.now × SizedRanges lpis.entry.owners.now)) }
{
    let device: DeviceId = first_of(place(devices, device_need(m), m.device.plain())?);
    let run = place(events, event_need(m, device), m.event.plain())?;
    let event: EventId = first_of(run);
    let lpi: Lpi = first_of(lpis_behind(events, run, lpis, m, device)?);
    let ids = MsiIds { device, event, lpi };
    with_room(ids, devices.owners, events.owners, lpis.owners)
}

// ---- the rows to be stored

// The row of a need, from a number on.
pub fn row(n: Need, start: u32) -> RangeRow
    requires { n.size ≤ 4294967295 }
    ensures { result ≡ row_from n start }
{
    let start = u64::from(start);
    RangeRow {
        controller: n.controller,
        its: n.its,
        device: n.device,
        start,
        end: start + n.size,
        owner: n.requester,
    }
}

// The device, its run of events, and the run of LPIs.
pub fn rows(m: Msi, ids: MsiIds) -> MsiRows
    ensures { result ≡ rows_of m ids.device ids.event ids.lpi }
{
    MsiRows {
        device: row(device_need(m), ids.device.0),
        event: row(event_need(m, ids.device), ids.event.0),
        lpi: row(lpi_need(m), ids.lpi.0),
    }
}
