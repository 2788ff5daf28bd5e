// A text's lines taken in order on a lent state: the line step, and the loop of it. No line tests the tables, and none copies them.
ghost use Rattle.std.specs.Prelude.{◌≡◌, ◌<◌, T, length};
ghost use Rattle.definition.specs.Tables.{kinds};
ghost use Rattle.definition.specs.Calls.{given};
ghost use Rattle.tables.specs.Views.{state_view};
ghost use Rattle.reader.specs.Kinds.{says};
ghost use Rattle.text.specs.Sofar.{sofar_of, Named};
ghost use Rattle.text.specs.Step.{Ready, results_size, Stepped, Fed};

use line::{Line, line_at};
use sofar::Sofar;
use tables::State;

pub mod line; // line.rt: the line that starts at a place of a text
pub mod sofar; // sofar.rt: how far a text has come, and what its next line does

// THE LINE STEP: a `pool` or a `hold` is made, the first want starts, a want is answered and its record written behind those before it.
pub fn step(s: &mut State, l: Line, t: Sofar, results: &mut [u64]) -> Sofar
    requires { (Ready (sofar_of t (state_view s.old) results.old)) × (length results.old ≡ results_size) × (t.lines < l.next) }
    ensures { (Stepped (says l.call) t (state_view s.old) results.old result (state_view s.new) results.new) × (result.at ≡ l.next) × (Named result) }
{
    if let Some(head) = t.head_of(l.call) {
        door::apply::apply(s, head);
    }
    if let Some(r) = t.asked(l.call) {
        plan::turn(s, r, t.wants, results);
    }
    t.advanced(l, inplace::marks::peek(s))
}

// A whole text on pools and reservations that are sound: line by line, up to its end or to the first refusal.
pub fn feed(s: &mut State, text: &[u8], results: &mut [u64]) -> Sofar
    requires { (T (given kinds (state_view s.old))) × (length results.old ≡ results_size) }
    ensures { Fed text.now (state_view s.old) results.old result (state_view s.new) results.new }
{
    let mut t = Sofar::beginning();
    // not a `for`: a line's end says where the next one starts, and a refusal ends the text
    while t.goes(text.len()) {
        t = step(s, line_at(text, t.at), t, results);
    }
    t
}
