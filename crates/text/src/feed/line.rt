// The line that starts at a place of a text.
ghost use Rattle.std.specs.Prelude.{◌≡◌, ◌≤◌, length};
ghost use Rattle.lines.specs.Place.{call_at, next_at};
ghost use Rattle.reader.specs.Kinds.{says};

use lines::parts::find;
use reader::read::read_line;
use request::call::Call;

// The call that it says, if it says one, and where the next line starts.
#[derive(Clone, Copy, Debug, PartialEq, Eq)]
pub struct Line {
    pub call: Option<Call>,
    pub next: usize,
}

// The line of a text from `at` on. One that no newline ends says no call, and is the last.
pub fn line_at(text: &[u8], at: usize) -> Line
    requires { at ≤ length text.now }
    ensures { (says result.call ≡ call_at text.now at) × (result.next ≡ next_at text.now at) }
{
    let n = text.len();
    let e = find(text, at, b'\n');
    if n <= e {
        return Line {
            call: None,
            next: n,
        };
    }
    let call = match read_line(&text[at..e]) {
        Call::Bad => None,
        call => Some(call),
    };
    Line { call, next: e + 1 }
}
