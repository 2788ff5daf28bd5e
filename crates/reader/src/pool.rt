// A `pool` line, from its kind's word on: a form that 01 gives it. (A form holds each number to its field's width: `as u32` loses nothing.)
ghost use Rattle.std.specs.Prelude.{◌≡◌};
ghost use Rattle.definition.specs.Request.{Use as DUse};
ghost use Rattle.lines.specs.Base.{tab, split};
ghost use Rattle.lines.specs.Forms.{pool_forms, tries};
ghost use Rattle.reader.specs.declared.kind.Kind.TheVariants as K;
ghost use Rattle.reader.specs.Kinds.{word_of, pool_says};

use crate::ids::ids;
use crate::kind::Kind;
use lines::form::{N16, N32, N64, read_numbers};
use request::call::PoolRange;

// The range that the fields behind a kind's word give.
pub fn read_range(kind: Kind, rest: &[u8]) -> Option<PoolRange>
    ensures { (u : DUse) → pool_says u result ≡ tries (pool_forms u) (word_of kind) (split tab rest.now) }
{
    match kind {
        Kind::Mmio => {
            let [start, end] = read_numbers(rest, [N64, N64])?;
            Some(PoolRange::Mmio(start, end))
        }
        Kind::Pio => {
            let [start, end] = read_numbers(rest, [N16, N16])?;
            Some(PoolRange::Pio(start as u16, end as u16))
        }
        Kind::Host => {
            let [start, end] = read_numbers(rest, [N64, N64])?;
            Some(PoolRange::Host(start, end))
        }
        Kind::Input => {
            let [controller, start, end] = read_numbers(rest, [N32, N64, N64])?;
            Some(PoolRange::Input(controller as u32, start, end))
        }
        Kind::Msi => read_msi(rest),
        Kind::Device | Kind::Event | Kind::Lpi => None,
    }
}

// .. of MSI: a controller, an ITS, and three ranges.
fn read_msi(rest: &[u8]) -> Option<PoolRange>
    ensures { (u : DUse) → pool_says u result ≡ tries (pool_forms u) (word_of K.Msi) (split tab rest.now) }
{
    let [controller, its, d, d_end, e, e_end, l, l_end] = read_numbers(rest, [N32; 8])?;
    Some(PoolRange::Msi(
        controller as u32,
        its as u32,
        ids(d as u32, d_end as u32),
        ids(e as u32, e_end as u32),
        ids(l as u32, l_end as u32),
    ))
}
