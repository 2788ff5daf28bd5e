// A line, from its first word on. (A form holds each number to its field's width: `as u32` loses nothing.)
ghost use Rattle.std.specs.Prelude.{◌≡◌, ℕ};
ghost use Rattle.lines.specs.Base.{tab, split};
ghost use Rattle.lines.specs.Numbers.{number};
ghost use Rattle.lines.specs.Forms.{n32};
ghost use Rattle.lines.specs.Code.{number_says};
ghost use Rattle.lines.specs.Line.{use_of, behind_pool, behind_hold, behind_want, by_word, read_line};
ghost use Rattle.request.specs.Calls.{call_of};
ghost use Rattle.reader.specs.Kinds.{use_says, says};

use crate::hold::read_held;
use crate::kind::Kind;
use crate::pool::read_range;
use crate::want::read_wanted;
use lines::number::read_number;
use lines::parts::cut;
use request::Request;
use request::call::{Call, Use};

// The longest line, its newline left out.
const LINE: usize = 200;

// Whether a range is for automatic or for fixed requests.
fn read_use(word: &[u8]) -> Option<Use>
    ensures { use_says result ≡ use_of word.now }
{
    if word == b"auto".as_slice() {
        Some(Use::Automatic)
    } else if word == b"fixed".as_slice() {
        Some(Use::Fixed)
    } else {
        None
    }
}

// A number of 32 bits: an owner, a requester or a slot.
fn read_u32(field: &[u8]) -> Option<u32>
    ensures { number_says result ≡ number n32 field.now }
{
    Some(read_number(field, u32::MAX as u64)? as u32)
}

// Behind `pool`: auto or fixed, and the rest.
pub fn read_pools(word: &[u8], kind: &[u8], rest: &[u8]) -> Option<Call>
    ensures { says result ≡ behind_pool word.now kind.now (split tab rest.now) }
{
    let user = read_use(word)?;
    let range = read_range(Kind::of(kind)?, rest)?;
    Some(Call::Pool(user, range))
}

// Behind `hold`: the owner, and the rest.
pub fn read_holds(owner: &[u8], kind: &[u8], rest: &[u8]) -> Option<Call>
    ensures { says result ≡ behind_hold owner.now kind.now (split tab rest.now) }
{
    let owner = read_u32(owner)?;
    let hold = read_held(Kind::of(kind)?, rest)?;
    Some(Call::Hold(owner, hold))
}

// Behind `want`: requester and slot, and the rest.
pub fn read_wants(requester: &[u8], slot: &[u8], rest: &[u8]) -> Option<Call>
    ensures { says result ≡ behind_want requester.now slot.now (split tab rest.now) }
{
    let requester = read_u32(requester)?;
    let slot = read_u32(slot)?;
    let (kind, rest) = cut(rest, b'\t')?;
    let want = read_wanted(Kind::of(kind)?, rest)?;
    Some(Call::Want(Request {
        requester,
        slot,
        want,
    }))
}

// A line by its first word w, the fields x and y behind it, and the rest.
pub fn read_words(w: &[u8], x: &[u8], y: &[u8], rest: &[u8]) -> Option<Call>
    ensures { says result ≡ by_word w.now x.now y.now (split tab rest.now) }
{
    if w == b"pool".as_slice() {
        read_pools(x, y, rest)
    } else if w == b"hold".as_slice() {
        read_holds(x, y, rest)
    } else if w == b"want".as_slice() {
        read_wants(x, y, rest)
    } else {
        None
    }
}

// What a line says, its newline left out.
pub fn read_call(line: &[u8]) -> Option<Call>
    ensures { says result ≡ read_line line.now }
{
    if LINE < line.len() {
        return None;
    }
    let (w, rest) = cut(line, b'\t')?;
    let (x, rest) = cut(rest, b'\t')?;
    let (y, rest) = cut(rest, b'\t')?;
    read_words(w, x, y, rest)
}

// .. as a call, which is bad where the line says none.
pub fn read_line(line: &[u8]) -> Call
    ensures { call_of result ≡ read_line line.now }
{
    read_call(line).unwrap_or(Call::Bad)
}
