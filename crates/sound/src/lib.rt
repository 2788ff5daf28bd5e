// The test of tables: what 01 calls sound, no more and no less. Here in 01's form, by value: each hands its tables on as lent ones.
#![tactic(auto)]

ghost use Rattle.std.specs.Prelude.{◌≡◌};
ghost use Rattle.definition.specs.Tables.{kinds};
ghost use Rattle.definition.specs.Calls.{sound};
ghost use Rattle.tables.specs.Views.{kind_of, state_view};
ghost use Rattle.table_tests.specs.Tests.{limits_of};
ghost use Rattle.sound.specs.Tests.{set_ranges, set_inputs};

use tables::{Inputs, Kind, Pool, Ranges, State};

pub mod lent;
pub mod wired;

// Whether all tables of a kind of ranges are sound.
pub fn ranges_set(kind: Kind, auto: Pool, fixed: Pool, held: Ranges, owners: Ranges) -> bool
    ensures { result ≡ set_ranges (limits_of (kind_of kind)) auto fixed held owners }
{
    lent::ranges_set(kind, &auto, &fixed, &held, &owners)
}

// Whether all tables of inputs are sound.
pub fn inputs_set(auto: Pool, fixed: Pool, held: Inputs, owners: Inputs) -> bool
    ensures { result ≡ set_inputs auto fixed held owners }
{
    lent::inputs_set(&auto, &fixed, &held, &owners)
}

// Whether all tables are sound: what a request and a plan ask.
pub fn sound(s: State) -> bool
    ensures { result ≡ sound kinds (state_view s) }
{
    lent::sound(&s)
}
