// What the test asks of rows of wired inputs.
ghost use Rattle.std.specs.Prelude.{◌≡◌, eqb, ltb};
ghost use Rattle.definition.specs.Tables.{input as wired, good_row};
ghost use Rattle.tables.specs.Views.{input_of};
ghost use Rattle.sound.specs.Tests.{input_fit, sound_inputs};
ghost use Rattle.sound.specs.InputRule.{inputs_is, input_clear};

use table_tests::table::Rule;
use tables::{InputRow, Inputs};

const LAST_TRIGGER: u32 = 3;

const SHARED: u32 = 1;

// An input is reserved once (`single`), and owned once or by rows that share it with one trigger.
#[derive(Clone, Copy)]
pub struct Wired {
    pub single: bool,
}

// A row has known codes and an owner, and can stand with the others. Its numbers keep to their width by their types.
impl Rule<Inputs> for Wired {
    ghost good = { λ w r. good_row wired (input_of r) };

    ghost fits = { λ w a b. input_fit w.single (input_of a) (input_of b) };

    ghost reach = { λ r. r.input };

    ghost beyond = { λ h r. ltb h r.input };

    ghost kin = { λ a b. eqb a.controller b.controller };

    ghost sound = { λ w t. sound_inputs w.single t };

    ghost clear = { λ w. input_clear w.single };

    ghost sound_is = { λ w. inputs_is w.single };

    #[tactic(auto, using(crate::proofs::InputLaws::input_good))]
    fn good(&self, r: InputRow) -> bool {
        r.trigger <= LAST_TRIGGER && r.sharing <= SHARED && 0 < r.owner
    }

    fn fits(&self, a: InputRow, b: InputRow) -> bool {
        inputs_fit(self.single, a, b)
    }

    fn fits_by_domain(&self, a: InputRow, b: InputRow) -> bool {
        inputs_fit(self.single, a, b)
    }

    fn kin(a: InputRow, b: InputRow) -> bool {
        a.controller == b.controller
    }

    fn reach(r: InputRow) -> u64 {
        r.input
    }

    fn beyond(high: u64, r: InputRow) -> bool {
        high < r.input
    }
}

// Whether two rows can stand in one table.
#[tactic(auto, using(crate::proofs::InputLaws::input_apart, crate::proofs::InputLaws::input_fits))]
pub fn inputs_fit(single: bool, a: InputRow, b: InputRow) -> bool
    ensures { result ≡ input_fit single (input_of a) (input_of b) }
{
    // one by one: as one test, or with `single` in the last line, the compiler begins with controllers, by which fewer differ
    if a.input != b.input {
        return true;
    }
    if a.controller != b.controller {
        return true;
    }
    if single {
        return false;
    }
    a.sharing == SHARED && b.sharing == SHARED && a.trigger == b.trigger
}
