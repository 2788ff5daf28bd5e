// Inputs of a controller: one number, exclusive or shared.
ghost use Rattle.std.specs.Prelude.{◌≡◌, ◌≤◌};
ghost use Rattle.definition.specs.Tables.{pool_limit, row_limit, used};
ghost use Rattle.tables.specs.Views.{input_of, pool_view, inputs_view};
ghost use Rattle.search.specs.Finds.{InOrder};
ghost use Rattle.choose.specs.Told.{choice_of, told, place_in};
ghost use Rattle.choose.specs.Wired.{input_asked, detail_of, Judges, FixedInput};

use super::{Choice, Lent, Refusal, Run, allowed, automatic, namespace};
use search::input::{first_on, one_input};
use tables::{InputRow, Inputs, Kind, Pool};

// What a request asks of a controller's inputs.
#[derive(Clone, Copy, Debug, PartialEq, Eq)]
pub struct InputNeed {
    pub controller: u32,
    pub trigger: u32,
    pub sharing: u32,
    pub requester: u32,
}

// Why a request may not stand beside the row that holds its input.
#[derive(Clone, Copy, Debug, PartialEq, Eq)]
pub enum Clash {
    Trigger,
    Sharing,
}

impl Clash {
    // The detail of the conflict.
    pub fn detail(self) -> u32
        ensures { result ≡ detail_of self }
    {
        match self {
            Clash::Trigger => 2,
            Clash::Sharing => 3,
        }
    }
}

// Both must be Shared with one trigger: the triggers are judged first, whatever the sharing.
pub fn validate_sharing(need: InputNeed, held: InputRow) -> Result<(), Clash>
    ensures { Judges need (input_of held) result }
{
    if need.trigger != held.trigger {
        return Err(Clash::Trigger);
    }
    if need.sharing != 1 || held.sharing != 1 {
        return Err(Clash::Sharing);
    }
    Ok(())
}

// The input asked for: 6 where no fixed pool allows it, then 8 where its first row does not suit.
pub fn fixed(pools: &Pool, owners: &Inputs, need: InputNeed, b: u64) -> Result<Run, Refusal>
    requires { (pools.now.n ≤ pool_limit) × (owners.now.n ≤ row_limit) }
    ensures { FixedInput pools.now owners.now need b result }
{
    let run = allowed(pools, one_input(need.controller), b)?;
    let Some(k) = first_on(owners, need.controller, b) else {
        return Ok(run);
    };
    let row = owners.row(k);
    match validate_sharing(need, row) {
        Ok(()) => Ok(run),
        Err(clash) => Err(Refusal::Conflict(namespace(Kind::Input), row.owner, clash.detail())),
    }
}

// The input that a request is granted, whether or not a row is free for it.
pub fn place(tables: Lent<'_, Inputs>, need: InputNeed, choice: Choice<u64>) -> Result<Run, Refusal>
    requires auto { InOrder tables.auto.now }
    requires fixed { tables.fixed.now.n ≤ pool_limit }
    requires rows { tables.owners.now.n ≤ row_limit }
    ensures { told (input_asked need) result ≡ place_in (used (pool_view tables.entry.auto.now)) (used (pool_view tables.entry.fixed.now)) (used (inputs_view tables.entry.owners.now)) (input_asked need) (choice_of choice) }
{
    match choice {
        Choice::Auto => automatic(tables.auto, tables.owners, one_input(need.controller)),
        Choice::Fixed(b) => fixed(tables.fixed, tables.owners, need, b),
    }
}
