// A `hold` line, from its kind's word on: a form that 01 gives it. (A form holds each number to its field's width: `as u32` loses nothing.)
ghost use Rattle.std.specs.Prelude.{◌≡◌, ℕ};
ghost use Rattle.lines.specs.Base.{tab, split};
ghost use Rattle.lines.specs.Forms.{hold_forms, tries};
ghost use Rattle.reader.specs.declared.kind.Kind.TheVariants as K;
ghost use Rattle.reader.specs.Kinds.{word_of, hold_says};

use crate::ids::ids;
use crate::kind::Kind;
use lines::form::{N16, N32, N64, read_numbers};
use request::call::Hold;
use tables::DeviceId;

// What the fields behind a kind's word hold.
pub fn read_held(kind: Kind, rest: &[u8]) -> Option<Hold>
    ensures { (o : ℕ) → hold_says o result ≡ tries (hold_forms o) (word_of kind) (split tab rest.now) }
{
    match kind {
        Kind::Mmio => {
            let [start, end] = read_numbers(rest, [N64, N64])?;
            Some(Hold::Mmio(start, end))
        }
        Kind::Pio => {
            let [start, end] = read_numbers(rest, [N16, N16])?;
            Some(Hold::Pio(start as u16, end as u16))
        }
        Kind::Host => {
            let [start, end] = read_numbers(rest, [N64, N64])?;
            Some(Hold::Host(start, end))
        }
        Kind::Input => {
            let [controller, n, trigger, sharing] = read_numbers(rest, [N32, N64, N32, N32])?;
            Some(Hold::Input(controller as u32, n, trigger as u32, sharing as u32))
        }
        Kind::Device => read_devices(rest),
        Kind::Event => read_events(rest),
        Kind::Lpi => read_lpis(rest),
        Kind::Msi => None,
    }
}

// .. of an ITS: devices.
fn read_devices(rest: &[u8]) -> Option<Hold>
    ensures { (o : ℕ) → hold_says o result ≡ tries (hold_forms o) (word_of K.Device) (split tab rest.now) }
{
    let [controller, its, start, end] = read_numbers(rest, [N32; 4])?;
    Some(Hold::Devices(controller as u32, its as u32, ids(start as u32, end as u32)))
}

// .. or events.
fn read_events(rest: &[u8]) -> Option<Hold>
    ensures { (o : ℕ) → hold_says o result ≡ tries (hold_forms o) (word_of K.Event) (split tab rest.now) }
{
    let [controller, its, device, start, end] = read_numbers(rest, [N32; 5])?;
    Some(Hold::Events(
        controller as u32,
        its as u32,
        DeviceId(device as u32),
        ids(start as u32, end as u32),
    ))
}

// .. of a controller: LPIs.
fn read_lpis(rest: &[u8]) -> Option<Hold>
    ensures { (o : ℕ) → hold_says o result ≡ tries (hold_forms o) (word_of K.Lpi) (split tab rest.now) }
{
    let [controller, start, end] = read_numbers(rest, [N32; 3])?;
    Some(Hold::Lpis(controller as u32, ids(start as u32, end as u32)))
}
