// A pool from plain numbers.
ghost use Rattle.std.specs.Prelude.{◌≡◌};
ghost use Rattle.request.specs.Calls.{use_of};
ghost use Rattle.numbers.specs.Coding.{pool_in, used_in, pool_size};
ghost use Rattle.numbers.specs.Face.{number};
ghost use Rattle.numbers.specs.Reading.{read_of};

use super::FIELDS;
use super::fields::{ids, narrow, port};
use request::call::{Call, PoolRange, Use};

// How many numbers a pool of a kind needs.
#[tactic(auto, unfolding(crate::specs::Coding::pool_size))]
pub fn pool_size(kind: u64) -> usize
    ensures { result ≡ pool_size kind }
{
    match kind {
        1 | 2 | 4 => 5,
        3 => 6,
        5 => 11,
        _ => 3,
    }
}

// An MSI domain, if its numbers fit.
#[tactic(auto, using(flat::proofs::ReadLaws::none_read, flat::proofs::ReadLaws::some_read), unfolding(crate::specs::Coding::pool_in, crate::specs::Coding::narrow, definition::specs::Base::all_of))]
fn domain(to: Use, fields: [u64; FIELDS]) -> Option<Call>
    ensures { read_of result ≡ pool_in (use_of to) 5 (number fields 0) (number fields 1) (number fields 2) (number fields 3) (number fields 4) (number fields 5) (number fields 6) (number fields 7) }
{
    let [a, b, c, d, e, f, g, h] = fields;
    let range = PoolRange::Msi(narrow(a)?, narrow(b)?, ids(c, d)?, ids(e, f)?, ids(g, h)?);
    Some(Call::Pool(to, range))
}

// A pool of any kind, if it can be read.
#[tactic(auto, using(flat::proofs::ReadLaws::none_read, flat::proofs::ReadLaws::some_read), unfolding(crate::specs::Coding::pool_in, crate::specs::Coding::narrow, definition::specs::Base::all_of))]
fn pool_of(to: Use, kind: u64, fields: [u64; FIELDS]) -> Option<Call>
    ensures { read_of result ≡ pool_in (use_of to) kind (number fields 0) (number fields 1) (number fields 2) (number fields 3) (number fields 4) (number fields 5) (number fields 6) (number fields 7) }
{
    let [a, b, c, ..] = fields;
    match kind {
        1 => Some(Call::Pool(to, PoolRange::Mmio(a, b))),
        2 => Some(Call::Pool(to, PoolRange::Pio(port(a)?, port(b)?))),
        3 => Some(Call::Pool(to, PoolRange::Input(narrow(a)?, b, c))),
        4 => Some(Call::Pool(to, PoolRange::Host(a, b))),
        5 => domain(to, fields),
        _ => None,
    }
}

// A pool of either use.
#[tactic(auto, unfolding(crate::specs::Coding::used_in))]
pub fn used_of(which: u64, kind: u64, fields: [u64; FIELDS]) -> Option<Call>
    ensures { read_of result ≡ used_in which kind (number fields 0) (number fields 1) (number fields 2) (number fields 3) (number fields 4) (number fields 5) (number fields 6) (number fields 7) }
{
    match which {
        0 => pool_of(Use::Automatic, kind, fields),
        1 => pool_of(Use::Fixed, kind, fields),
        _ => None,
    }
}
