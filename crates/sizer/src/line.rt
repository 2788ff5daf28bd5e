// The input's one line: seven fields, parted by single tabs and closed by a newline.
ghost use Rattle.std.specs.Prelude.{◌≡◌};
ghost use Rattle.lines.specs.Base.{tab, split};
ghost use Rattle.lines.specs.Code.{row_of};
ghost use Rattle.sizer.specs.Words.{fields, field_count, line_by};
ghost use Rattle.sizer.specs.Code.{capped_word};

use crate::word::read_word;
use lines::form::read_each;
use registers::REGISTERS;

// The longest input.
pub const TEXT: usize = 4096;

// The words, and the requester.
pub const FIELDS: usize = REGISTERS + 1;

// The line's fields, all of them words.
pub fn read_fields(line: &[u8]) -> Option<[u64; FIELDS]>
    ensures { result ≡ row_of (fields capped_word field_count (split tab line.now)) }
{
    read_each(line, [(); FIELDS], |f, _| read_word(f))
}

// The whole input.
#[tactic(auto, unfolding(crate::specs::Words::line_by, lines::specs::Base::when))]
pub fn read_words(text: &[u8]) -> Option<[u64; FIELDS]>
    ensures { result ≡ row_of (line_by capped_word text.now) }
{
    match text {
        [line @ .., b'\n'] if text.len() <= TEXT => read_fields(line),
        _ => None,
    }
}
