// What the tables of one kind give: the row of what was chosen, if a row is free for it.
ghost use Rattle.std.specs.Prelude.{◌≡◌, ◌≤◌, ◌<◌};
ghost use Rattle.definition.specs.Tables.{used};
ghost use Rattle.tables.specs.Views.{pool_view, ranges_view, inputs_view};
ghost use Rattle.tables.specs.Sized.{SizedRanges, SizedInputs};
ghost use Rattle.search.specs.Asks.{need_of};
ghost use Rattle.choose.specs.Told.{choice_of, chosen_in};
ghost use Rattle.choose.specs.Wired.{input_asked};
ghost use Rattle.decide.specs.Granted.{Fit, standing, row_for, input_for, row_told, input_told};

use choose::wired::InputNeed;
use choose::{Choice, Lent, Refusal, Run};
use search::Need;
use tables::{InputRow, Inputs, RangeRow, Ranges};

// What was chosen, if a row is free for it. Full comes last: 6, 7 or 8 stand in what was chosen.
pub fn standing(chosen: Result<Run, Refusal>, room: bool) -> Result<Run, Refusal>
    ensures { result ≡ standing room chosen }
{
    let run = chosen?;
    if room { Ok(run) } else { Err(Refusal::Full) }
}

// A row of the need's domain and requester.
pub fn row(need: Need, run: Run) -> RangeRow
    ensures { result ≡ row_for need run }
{
    RangeRow {
        controller: need.controller,
        its: need.its,
        device: need.device,
        start: run.start,
        end: run.end,
        owner: need.requester,
    }
}

// A row of the input.
pub fn input_row(need: InputNeed, input: u64) -> InputRow
    ensures { result ≡ input_for need input }
{
    InputRow {
        controller: need.controller,
        input,
        trigger: need.trigger,
        sharing: need.sharing,
        owner: need.requester,
    }
}

pub fn range(tables: Lent<'_, Ranges>, need: Need, choice: Choice<u64>) -> Result<RangeRow, Refusal>
    requires fit { Fit tables.auto.now tables.fixed.now tables.owners.now.n }
    requires some { (0 < need.size) × (0 < need.alignment) }
    ensures told { row_told result ≡ chosen_in (used (pool_view tables.entry.auto.now)) (used (pool_view tables.entry.fixed.now)) (used (ranges_view tables.entry.owners.now)) (need_of need) (choice_of choice) }
    ensures sized { SizedRanges tables.entry.owners.now }
{
    let chosen = choose::range::place(tables, need, choice);
    let run = standing(chosen, tables.owners.has_room())?;
    Ok(row(need, run))
}

pub fn input(
    tables: Lent<'_, Inputs>,
    need: InputNeed,
    choice: Choice<u64>,
) -> Result<InputRow, Refusal>
    requires fit { Fit tables.auto.now tables.fixed.now tables.owners.now.n }
    ensures told { input_told result ≡ chosen_in (used (pool_view tables.entry.auto.now)) (used (pool_view tables.entry.fixed.now)) (used (inputs_view tables.entry.owners.now)) (input_asked need) (choice_of choice) }
    ensures sized { SizedInputs tables.entry.owners.now }
{
    let chosen = choose::wired::place(tables, need, choice);
    let run = standing(chosen, tables.owners.has_room())?;
    Ok(input_row(need, run.start))
}
