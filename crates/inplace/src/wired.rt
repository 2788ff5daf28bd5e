// Rows taken out of a table of inputs: another row than the ranges', the same turns.
ghost use Rattle.inplace.specs.Cut.{of_inputs, inputs_close};

use super::marks::Rows;
use lent_table::store::set_input;
use tables::{InputRow, Inputs};

impl Rows for Inputs {
    ghost layout = { of_inputs };

    ghost closes = { inputs_close };

    fn len(&self) -> usize {
        self.n
    }

    fn owner(&self, k: usize) -> u32 {
        self.owner[k]
    }

    fn clear(&mut self, k: usize) {
        set_input(self, k, InputRow::default());
    }

    fn shift(&mut self, k: usize, to: usize) {
        let row = self.row(k);
        self.clear(k);
        set_input(self, to, row);
    }

    fn cut(&mut self, n: usize) {
        self.n = n;
    }
}
