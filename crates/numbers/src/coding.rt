// A call that adds or starts, from plain numbers: how many it needs, and what it asks.
ghost use Rattle.std.specs.Prelude.{◌≡◌};
ghost use Rattle.request.specs.Calls.{call_of};
ghost use Rattle.numbers.specs.Coding.{adding_in, size_in};
ghost use Rattle.numbers.specs.Face.{number};
ghost use Rattle.numbers.specs.Reading.{read_of};

use flat::REQUEST;
use request::call::Call;

pub mod fields; // fields.rt: numbers that fit
pub mod holds; // holds.rt: reservations
pub mod pools; // pools.rt: pools

// The most numbers behind the kind that a call has.
pub const FIELDS: usize = 8;

// How many numbers a call needs.
#[tactic(auto, unfolding(crate::specs::Coding::size_in))]
pub fn call_size(first: u64, kind: u64) -> usize
    ensures { result ≡ size_in first kind }
{
    match first {
        1 => pools::pool_size(kind),
        2 => holds::hold_size(kind),
        4 => 1 + REQUEST,
        5 => 2,
        _ => 1,
    }
}

// A call that adds or starts, by its first number, if it can be read.
#[tactic(auto, unfolding(crate::specs::Coding::adding_in))]
fn read_adding(first: u64, second: u64, kind: u64, fields: [u64; FIELDS]) -> Option<Call>
    ensures { read_of result ≡ adding_in first second kind (number fields 0) (number fields 1) (number fields 2) (number fields 3) (number fields 4) (number fields 5) (number fields 6) (number fields 7) }
{
    match first {
        1 => pools::used_of(second, kind, fields),
        2 => holds::hold_of(second, kind, fields),
        3 => Some(Call::Start),
        _ => None,
    }
}

// .. and what stands for one that can't be read.
pub fn adding_of(first: u64, second: u64, kind: u64, fields: [u64; FIELDS]) -> Call
    ensures { call_of result ≡ adding_in first second kind (number fields 0) (number fields 1) (number fields 2) (number fields 3) (number fields 4) (number fields 5) (number fields 6) (number fields 7) }
{
    read_adding(first, second, kind, fields).unwrap_or(Call::Bad)
}
