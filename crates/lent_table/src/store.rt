// A row stored in a lent table, in place: where it is to stand, or at the end, behind the last used one.
ghost use Rattle.std.specs.Prelude.{◌≡◌, ◌<◌};
ghost use Rattle.definition.specs.Tables.{row_limit};
ghost use Rattle.tables.specs.Views.{range_of, input_of};
ghost use Rattle.tables.specs.Whole.{pushed_range, pushed_input};
ghost use Rattle.lent_table.specs.Store.{set_range, set_input, Free, put_range, put_input};

use tables::{InputRow, Inputs, RangeRow, Ranges};

// Row k. Ranges and inputs have other columns: one function over both would hand on as many as there are.
pub fn set_range(t: &mut Ranges, k: usize, row: RangeRow)
    requires { k < row_limit }
    ensures { t.new ≡ set_range t.old k row }
{
    t.controller[k] = row.controller;
    t.its[k] = row.its;
    t.device[k] = row.device;
    t.start[k] = row.start;
    t.end[k] = row.end;
    t.owner[k] = row.owner;
}

pub fn set_input(t: &mut Inputs, k: usize, row: InputRow)
    requires { k < row_limit }
    ensures { t.new ≡ set_input t.old k row }
{
    t.controller[k] = row.controller;
    t.input[k] = row.input;
    t.trigger[k] = row.trigger;
    t.sharing[k] = row.sharing;
    t.owner[k] = row.owner;
}

pub fn push_range(t: &mut Ranges, row: RangeRow)
    requires { t.old.n < row_limit }
    ensures { t.new ≡ pushed_range t.old (range_of row) }
{
    let at = t.n;
    set_range(t, at, row);
    t.n = at + 1;
}

pub fn push_input(t: &mut Inputs, row: InputRow)
    requires { t.old.n < row_limit }
    ensures { t.new ≡ pushed_input t.old (input_of row) }
{
    let to = t.n;
    set_input(t, to, row);
    t.n = to + 1;
}

// .. the row, if there is one.
pub fn range(t: &mut Ranges, row: Option<RangeRow>)
    requires { Free t.old.n row }
    ensures { t.new ≡ put_range t.old row }
{
    if let Some(row) = row {
        push_range(t, row);
    }
}

pub fn input(t: &mut Inputs, row: Option<InputRow>)
    requires { Free t.old.n row }
    ensures { t.new ≡ put_input t.old row }
{
    if let Some(row) = row {
        push_input(t, row);
    }
}
