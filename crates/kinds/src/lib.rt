// The calls of one kind: its tables go in and come back by value. They are tested first; a refused call hands them back as they came.
#![tactic(auto)]

ghost use Rattle.std.specs.Prelude.{◌≡◌, false};
ghost use Rattle.definition.specs.Tables.{mmio, pio, host, nature};
ghost use Rattle.definition.specs.Request.{mmio_want, pio_want, input_want, host_want, good_request};
ghost use Rattle.request.specs.Asked.{want_of};
ghost use Rattle.tables.specs.Views.{kind_of};
ghost use Rattle.sound.specs.Tests.{set_inputs};
ghost use Rattle.choose.specs.Told.{choice_of};
ghost use Rattle.choose.specs.Ids.{device_choice, event_choice, lpi_choice};
ghost use Rattle.kinds.specs.Kinds.{asked, LentIs, Sensible, RangeServed, InputServed, ServesRange, ServesInput};
ghost use Rattle.kinds.specs.Msis.{set_of, set_msi, SomeEvents, MsiServed, ServesMsi};
ghost use Rattle.definition.specs.Request as R;

use choose::wired::InputNeed;
use choose::{Choice, Lent, Refusal, Run};
use decide::needing;
use msi::{Msi, MsiIds};
use request::{Request, Want, good_request};
use search::Need;
use sound::lent::{inputs_set, ranges_set};
use tables::{DeviceId, EventId, Inputs, Kind, Lpi, Pool, Ranges};

mod grant; // grant.rt: on lent tables of one kind

// The tables of a kind whose rows hold ranges. (A struct of its own: an exported function takes none with a type parameter, and bench/ exports these.)
#[repr(C)]
#[derive(Clone, Copy)]
pub struct RangeTables {
    pub auto: Pool,
    pub fixed: Pool,
    pub held: Ranges,
    pub owners: Ranges,
}

// The tables of inputs.
#[repr(C)]
#[derive(Clone, Copy)]
pub struct InputTables {
    pub auto: Pool,
    pub fixed: Pool,
    pub held: Inputs,
    pub owners: Inputs,
}

// The tables of a device, its events and LPIs.
#[repr(C)]
#[derive(Clone, Copy)]
pub struct MsiTables {
    pub device: RangeTables,
    pub event: RangeTables,
    pub lpi: RangeTables,
}

// The tables afterwards, and what was chosen, or why nothing was.
#[derive(Clone, Copy)]
pub struct Answer<T, C> {
    pub tables: T,
    pub chosen: Result<C, Refusal>,
}

pub type RangeAnswer = Answer<RangeTables, Run>;

pub type InputAnswer = Answer<InputTables, Run>;

pub type MsiAnswer = Answer<MsiTables, MsiIds>;

impl RangeTables {
    // As a request sees them.
    fn lent(&self) -> Lent<'_, Ranges>
        ensures { LentIs self.now result.auto.now result.fixed.now result.owners.now }
    {
        Lent {
            auto: &self.auto,
            fixed: &self.fixed,
            owners: &self.owners,
        }
    }

    // Whether the tables of a kind of ranges are sound.
    pub fn is_sound(&self, kind: Kind) -> bool
        ensures { result ≡ set_of (kind_of kind) self.now }
    {
        ranges_set(kind, &self.auto, &self.fixed, &self.held, &self.owners)
    }
}

impl InputTables {
    // Whether all tables of inputs are sound.
    pub fn is_sound(&self) -> bool
        ensures { result ≡ set_inputs self.now.auto self.now.fixed self.now.held self.now.owners }
    {
        inputs_set(&self.auto, &self.fixed, &self.held, &self.owners)
    }
}

impl MsiTables {
    // Whether the tables of all three kinds are sound.
    #[tactic(auto, unfolding(crate::specs::Msis::set_msi))]
    pub fn is_sound(&self) -> bool
        ensures { result ≡ set_msi self.now }
    {
        self.device.is_sound(Kind::Device)
            && self.event.is_sound(Kind::Event)
            && self.lpi.is_sound(Kind::Lpi)
    }
}

// ---- 1, then 2, then the choice, with its rows at the ends of the owner tables

pub fn range_answer(t: RangeTables, good: bool, need: Need, choice: Choice<u64>) -> RangeAnswer
    requires { ((nature (kind_of need.kind)).wired ≡ false) × (Sensible good need) }
    ensures { RangeServed t good need choice result }
{
    let mut tables = t;
    let chosen = grant::range(&mut tables, good, need, choice);
    RangeAnswer { tables, chosen }
}

pub fn input_answer(t: InputTables, good: bool, ask: InputNeed, choice: Choice<u64>) -> InputAnswer
    ensures { InputServed t good ask choice result }
{
    let mut tables = t;
    let chosen = grant::input(&mut tables, good, ask, choice);
    InputAnswer { tables, chosen }
}

pub fn msi_answer(t: MsiTables, good: bool, ask: Msi) -> MsiAnswer
    requires { SomeEvents good ask }
    ensures { MsiServed t good ask result }
{
    let mut tables = t;
    let chosen = grant::msi(&mut tables, good, ask);
    MsiAnswer { tables, chosen }
}

// ---- the calls, in 01's form: the numbers of a request one by one, as `Want` has them

fn makes_sense(requester: u32, slot: u32, want: Want) -> bool
    ensures { result ≡ good_request (asked requester slot (want_of want)) }
{
    good_request(Request {
        requester,
        slot,
        want,
    })
}

// An MMIO range.
pub fn allocate_mmio(
    t: RangeTables,
    requester: u32,
    slot: u32,
    size: u64,
    alignment: u64,
    choice: Choice<u64>,
) -> RangeAnswer
    ensures { ServesRange mmio t requester slot (mmio_want size alignment (choice_of choice)) result }
{
    let want = Want::Mmio {
        size,
        alignment,
        choice,
    };
    let good = makes_sense(requester, slot, want);
    let need = needing(Kind::Mmio, size, alignment, requester);
    range_answer(t, good, need, choice)
}

// A range of ports.
pub fn allocate_pio(
    t: RangeTables,
    requester: u32,
    slot: u32,
    size: u64,
    alignment: u64,
    choice: Choice<u64>,
) -> RangeAnswer
    ensures { ServesRange pio t requester slot (pio_want size alignment (choice_of choice)) result }
{
    let want = Want::Pio {
        size,
        alignment,
        choice,
    };
    let good = makes_sense(requester, slot, want);
    let need = needing(Kind::Pio, size, alignment, requester);
    range_answer(t, good, need, choice)
}

// A host IRQ.
pub fn allocate_host_irq(
    t: RangeTables,
    requester: u32,
    slot: u32,
    choice: Choice<u64>,
) -> RangeAnswer
    ensures { ServesRange host t requester slot (host_want (choice_of choice)) result }
{
    let want = Want::Host { choice };
    let good = makes_sense(requester, slot, want);
    let need = needing(Kind::Host, 1, 1, requester);
    range_answer(t, good, need, choice)
}

// An input of a controller. (Its numbers come one by one, as docs/PROMISES.md has the request of each kind.)
pub fn allocate_wired(
    t: InputTables,
    requester: u32,
    slot: u32,
    controller: u32,
    trigger: u32,
    sharing: u32,
    choice: Choice<u64>,
) -> InputAnswer
    ensures { ServesInput t requester slot (input_want controller trigger sharing (choice_of choice)) result }
{
    let want = Want::Input {
        controller,
        trigger,
        sharing,
        choice,
    };
    let good = makes_sense(requester, slot, want);
    let ask = InputNeed {
        controller,
        trigger,
        sharing,
        requester,
    };
    input_answer(t, good, ask, choice)
}

// A device, a run of its events, and a run of LPIs. (One by one, as above.)
pub fn allocate_msi(
    t: MsiTables,
    requester: u32,
    slot: u32,
    controller: u32,
    its: u32,
    count: u32,
    device: Choice<DeviceId>,
    event: Choice<EventId>,
    lpi: Choice<Lpi>,
) -> MsiAnswer
    ensures { ServesMsi t requester slot (R.msi_want controller its count (device_choice device) (event_choice event) (lpi_choice lpi)) result }
{
    let want = Want::Msi {
        controller,
        its,
        count,
        device,
        event,
        lpi,
    };
    let good = makes_sense(requester, slot, want);
    let ask = Msi {
        controller,
        its,
        count,
        requester,
        device,
        event,
        lpi,
    };
    msi_answer(t, good, ask)
}
