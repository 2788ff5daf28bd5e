// Reservation and owner tables of wired inputs: what their test reads. What it asks of their rows stands in `sound`.
ghost use Rattle.definition.specs.Tables.{row_limit, same_row};
ghost use Rattle.tables.specs.Views.{input_of, input_at};
ghost use Rattle.table_tests.specs.Tests.{blank_input, tidy_inputs};
ghost use Rattle.table_tests.specs.InputTable.{inputs_tidy};

use super::table::Table;
use tables::{InputRow, Inputs, ROWS};

impl Table for Inputs {
    type Row = InputRow;

    const SIZE: usize = ROWS;

    ghost SIZE = { row_limit };

    ghost count = { λ t. t.n };

    ghost at = { input_at };

    ghost blank = { λ r. same_row blank_input (input_of r) };

    ghost same = { λ a b. same_row (input_of a) (input_of b) };

    ghost tidy = { tidy_inputs };

    ghost tidy_is = { inputs_tidy };

    fn count(&self) -> usize {
        self.n
    }

    fn at(&self, k: usize) -> InputRow {
        self.row(k)
    }

    #[tactic(auto, using(crate::specs::InputTable::once), unfolding(definition::specs::Tables::same_row, definition::specs::Tables::same_dom))]
    fn blank(r: InputRow) -> bool {
        // `==` would stop at the first number that is not 0: with `&` the compiler takes several rows at a time
        (0 == r.controller)
            & (0 == r.input)
            & ((0 == r.trigger) & (0 == r.sharing) & (0 == r.owner))
    }

    #[tactic(auto, using(crate::specs::InputTable::once), unfolding(definition::specs::Tables::same_row, definition::specs::Tables::same_dom))]
    fn same(a: InputRow, b: InputRow) -> bool {
        a == b
    }
}
