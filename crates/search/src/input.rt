// Owners that hold inputs, as the search sees them: one number of a controller.
ghost use Rattle.std.specs.Prelude.{◌≡◌, ◌+◌, ◌^◌, ◌≤◌, ◌<◌};
ghost use Rattle.definition.specs.Tables.{row_limit, wired_row, meets};
ghost use Rattle.tables.specs.Below.{first};
ghost use Rattle.tables.specs.Views.{input_of, input_at, inputs_view};
ghost use Rattle.search.specs.Asks.{need_of, one_input};
ghost use Rattle.search.specs.Rows.{input_rows, OneInput, inputs_listed, one_some};

use super::{Need, Owners};
use tables::{Inputs, Kind};

// One input of a controller, as a need: no search reads who asks.
pub fn one_input(controller: u32) -> Need
    ensures { result ≡ one_input controller }
{
    Need {
        kind: Kind::Input,
        controller,
        its: 0,
        device: 0,
        size: 1,
        alignment: 1,
        requester: 0,
    }
}

// Whether row `k` is on input `x` of the controller.
pub fn is_on(owners: &Inputs, k: usize, controller: u32, x: u64) -> bool
    requires { k < row_limit }
    ensures { result ≡ meets (wired_row controller x 0 0 0) (input_of (input_at owners.now k)) }
{
    owners.input[k] == x && owners.controller[k] == controller
}

// The first holder of an input of a controller, in table order.
pub fn first_on(owners: &Inputs, controller: u32, x: u64) -> Option<usize>
    requires { owners.now.n ≤ row_limit }
    ensures { result ≡ first (λ k. meets (wired_row controller x 0 0 0) (input_of (input_at owners.now k))) owners.now.n }
{
    (0..owners.n).find(|&k| is_on(owners, k, controller, x))
}

impl Owners for Inputs {
    ghost view = { inputs_view };

    ghost row_at = { input_rows };

    ghost Serves = { OneInput };

    ghost rows = { inputs_listed };

    ghost some = { one_some };

    fn count(&self) -> usize {
        self.n
    }

    fn past(&self, k: usize, need: Need, b: u64, _stop: u64) -> u64 {
        if is_on(self, k, need.controller, b) {
            b + 1
        } else {
            b
        }
    }
}
