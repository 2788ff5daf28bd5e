// Reservations of controller inputs, one table. After src/resources/pool/wired.rs of axdevice 0.8.5, Apache-2.0, see NOTICE; changed.
ghost use Rattle.std.specs.Prelude.{◌≡◌, ◌≤◌, ◌<◌, IfOk};
ghost use Rattle.definition.specs.Tables.{row_limit, input as wired, meets};
ghost use Rattle.tables.specs.Below.{first};
ghost use Rattle.tables.specs.Views.{input_of, input_at, inputs_view};
ghost use Rattle.tables.specs.Sized.{SizedInputs};
ghost use Rattle.insert.specs.Answers.{Told};

use super::{Refused, Reply};
use tables::{InputRow, Inputs, ROWS};

const LAST_TRIGGER: u32 = 3;

const SHARED: u32 = 1;

// Whether two rows are of one input.
#[tactic(auto, using(crate::proofs::HoldLaws::inputs_apart, crate::proofs::HoldLaws::inputs_level))]
pub fn same_input(a: InputRow, b: InputRow) -> bool
    ensures { result ≡ meets (input_of a) (input_of b) }
{
    a.input == b.input && a.controller == b.controller
}

// The first used row, in table order, on the input of `r`.
pub fn first_input(t: &Inputs, r: InputRow) -> Option<usize>
    requires { t.now.n ≤ row_limit }
    ensures { result ≡ first (λ k. meets (input_of r) (input_of (input_at t.now k))) t.now.n }
{
    (0..t.n).find(|&k| same_input(r, t.row(k)))
}

// What a reservation of `r` answers: a code is unknown, nobody owns it, the input has a row, or none is free. (Not one function with the ranges': other codes, and an order of its own.)
#[tactic(auto, using(crate::proofs::FirstLaws::hit_below))]
pub fn refuse_input(t: &Inputs, r: InputRow) -> Reply
    requires { t.now.n ≤ row_limit }
    ensures told { Told wired (input_of r) (inputs_view t.now) result }
    ensures room { IfOk result (λ _. SizedInputs t.now × (t.now.n < row_limit)) }
{
    if LAST_TRIGGER < r.trigger || SHARED < r.sharing {
        return Err(Refused::BadInput);
    }
    if r.owner == 0 {
        return Err(Refused::BadOwner);
    }
    if let Some(k) = first_input(t, r) {
        return Err(Refused::Overlaps(t.owner[k]));
    }
    if ROWS <= t.n {
        return Err(Refused::Full);
    }
    Ok(())
}
