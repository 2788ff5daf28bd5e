// One request on a lent state whose tables are sound, in place: no table is copied.
#![tactic(auto)]

ghost use Rattle.std.specs.Prelude.{◌≡◌, T};
ghost use Rattle.definition.specs.Tables.{kinds};
ghost use Rattle.definition.specs.Calls.{sound};
ghost use Rattle.tables.specs.Views.{state_view};
ghost use Rattle.request.specs.Asked.{request_of};
ghost use Rattle.decide.specs.Outcome.{bases_in, after};
ghost use Rattle.decide.specs.Kept.{RowsFree, RoomFor, said_in, stored_in, kept_with, answer};

use decide::{Bases, Rows};
use lent_table::store::{push_input, push_range};
use request::{Request, Said};
use tables::State;

pub mod marks; // marks.rt: what is read of a state, and rows taken out of it
mod wired; // wired.rt: .. out of the table of inputs

// The five numbers of an answer that names no request.
pub fn say(s: &mut State, said: Said)
    ensures { s.new ≡ said_in said s.old }
{
    s.number = said.number;
    s.index = 0;
    s.namespace = said.namespace;
    s.owner = said.owner;
    s.detail = said.detail;
}

// Rows, each at the end of its table.
pub fn store(s: &mut State, rows: Rows)
    requires { RowsFree rows s.old.owners }
    ensures { s.new ≡ stored_in rows s.old }
{
    match rows {
        Rows::Mmio(row) => push_range(&mut s.owners.mmio, row),
        Rows::Pio(row) => push_range(&mut s.owners.pio, row),
        Rows::Input(row) => push_input(&mut s.owners.input, row),
        Rows::Host(row) => push_range(&mut s.owners.host, row),
        Rows::Msi(three) => {
            push_range(&mut s.owners.device, three.device);
            push_range(&mut s.owners.event, three.event);
            push_range(&mut s.owners.lpi, three.lpi);
        }
    }
}

// Rows, if there are any, stored, and what is said beside them.
pub fn keep(s: &mut State, rows: Option<Rows>, said: Said)
    requires { RoomFor rows s.old.owners }
    ensures { s.new ≡ kept_with rows said s.old }
{
    if let Some(rows) = rows {
        store(s, rows);
    }
    say(s, said);
}

// One request: the state afterwards is the definition's, and the first numbers of the rows are answered, if it is accepted.
pub fn resolve(s: &mut State, r: Request) -> Option<Bases>
    requires { T (sound kinds (state_view s.old)) }
    ensures { (state_view s.new ≡ after (state_view s.old) (answer s.old (request_of r))) × (result ≡ bases_in (request_of r).want (answer s.old (request_of r))) }
{
    match decide::find(s, r) {
        Ok(granted) => {
            keep(s, Some(granted.rows), Said::plain(0));
            Some(granted.bases)
        }
        Err(refusal) => {
            keep(s, None, Said::from(refusal));
            None
        }
    }
}
