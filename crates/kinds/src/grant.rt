// One request on lent tables of one kind: they are tested, then the request, then asked; a row is stored, or nothing is changed.
ghost use Rattle.std.specs.Prelude.{◌≡◌, false};
ghost use Rattle.definition.specs.Tables.{nature};
ghost use Rattle.tables.specs.Views.{kind_of};
ghost use Rattle.kinds.specs.Kinds.{Sensible, RangeServed, InputServed};
ghost use Rattle.kinds.specs.Msis.{SomeEvents, MsiServed};

use super::{InputTables, MsiTables, RangeTables};
use choose::wired::InputNeed;
use choose::{Choice, Lent, Refusal, Run};
use decide::look::{input_row, row, standing};
use lent_table::store::{push_input, push_range};
use msi::{Msi, MsiIds};
use search::Need;

pub fn range(
    t: &mut RangeTables,
    good: bool,
    need: Need,
    choice: Choice<u64>,
) -> Result<Run, Refusal>
    requires { ((nature (kind_of need.kind)).wired ≡ false) × (Sensible good need) }
    ensures { RangeServed t.old good need choice (record { tables = t.new; chosen = result }) }
{
    if !t.is_sound(need.kind) {
        return Err(Refusal::Malformed);
    }
    if !good {
        return Err(Refusal::BadInput);
    }
    let chosen = choose::range::place(t.lent(), need, choice);
    let run = standing(chosen, t.owners.has_room())?;
    push_range(&mut t.owners, row(need, run));
    Ok(run)
}

// Beside `range`: a need of inputs has codes, and their tables a test, a search and a row of their own.
pub fn input(
    t: &mut InputTables,
    good: bool,
    need: InputNeed,
    choice: Choice<u64>,
) -> Result<Run, Refusal>
    ensures { InputServed t.old good need choice (record { tables = t.new; chosen = result }) }
{
    if !t.is_sound() {
        return Err(Refusal::Malformed);
    }
    if !good {
        return Err(Refusal::BadInput);
    }
    let tables = Lent {
        auto: &t.auto,
        fixed: &t.fixed,
        owners: &t.owners,
    };
    let chosen = choose::wired::place(tables, need, choice);
    let run = standing(chosen, t.owners.has_room())?;
    push_input(&mut t.owners, input_row(need, run.start));
    Ok(run)
}

// All three rows or none: nothing is stored until they stand and a row is free for each.
pub fn msi(t: &mut MsiTables, good: bool, ask: Msi) -> Result<MsiIds, Refusal>
    requires { SomeEvents good ask }
    ensures { MsiServed t.old good ask (record { tables = t.new; chosen = result }) }
{
    if !t.is_sound() {
        return Err(Refusal::Malformed);
    }
    if !good {
        return Err(Refusal::BadInput);
    }
    let ids = msi::find(t.device.lent(), t.event.lent(), t.lpi.lent(), ask)?;
    let rows = msi::rows(ask, ids);
    push_range(&mut t.device.owners, rows.device);
    push_range(&mut t.event.owners, rows.event);
    push_range(&mut t.lpi.owners, rows.lpi);
    Ok(ids)
}
