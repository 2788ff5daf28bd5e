// A reservation from plain numbers.
ghost use Rattle.std.specs.Prelude.{◌≡◌};
ghost use Rattle.numbers.specs.Coding.{held_in, hold_in, hold_size};
ghost use Rattle.numbers.specs.Face.{number};
ghost use Rattle.numbers.specs.Reading.{read_of};

use super::FIELDS;
use super::fields::{ids, narrow, port};
use request::call::{Call, Hold};
use tables::DeviceId;

// How many numbers a reservation of a kind needs.
#[tactic(auto, unfolding(crate::specs::Coding::hold_size))]
pub fn hold_size(kind: u64) -> usize
    ensures { result ≡ hold_size kind }
{
    match kind {
        1 | 2 | 4 => 5,
        3 | 5 | 8 => 7,
        6 => 8,
        7 => 6,
        _ => 3,
    }
}

// The events of a device, if their numbers fit.
#[tactic(auto, using(flat::proofs::ReadLaws::none_read, flat::proofs::ReadLaws::some_read), unfolding(crate::specs::Coding::held_in, crate::specs::Coding::narrow, definition::specs::Base::all_of))]
fn events(owner: u32, fields: [u64; FIELDS]) -> Option<Call>
    ensures { read_of result ≡ held_in owner 6 (number fields 0) (number fields 1) (number fields 2) (number fields 3) (number fields 4) }
{
    let [a, b, c, d, e, ..] = fields;
    let device = DeviceId(narrow(c)?);
    let hold = Hold::Events(narrow(a)?, narrow(b)?, device, ids(d, e)?);
    Some(Call::Hold(owner, hold))
}

// A reservation of any kind, if it can be read.
#[tactic(auto, using(flat::proofs::ReadLaws::none_read, flat::proofs::ReadLaws::some_read), unfolding(crate::specs::Coding::held_in, crate::specs::Coding::narrow, definition::specs::Base::all_of))]
fn held_of(owner: u32, kind: u64, fields: [u64; FIELDS]) -> Option<Call>
    ensures { read_of result ≡ held_in owner kind (number fields 0) (number fields 1) (number fields 2) (number fields 3) (number fields 4) }
{
    let [a, b, c, d, ..] = fields;
    let hold = match kind {
        1 => Hold::Mmio(a, b),
        2 => Hold::Pio(port(a)?, port(b)?),
        3 => Hold::Input(narrow(a)?, b, narrow(c)?, narrow(d)?),
        4 => Hold::Host(a, b),
        5 => Hold::Devices(narrow(a)?, narrow(b)?, ids(c, d)?),
        6 => return events(owner, fields),
        7 => Hold::Lpis(narrow(a)?, ids(b, c)?),
        8 => Hold::Pair(narrow(a)?, b, narrow(c)?, d),
        _ => return None,
    };
    Some(Call::Hold(owner, hold))
}

// .. of any owner.
#[tactic(auto, using(flat::proofs::ReadLaws::none_read, flat::proofs::ReadLaws::some_read), unfolding(crate::specs::Coding::hold_in, crate::specs::Coding::narrow, definition::specs::Base::all_of))]
pub fn hold_of(owner: u64, kind: u64, fields: [u64; FIELDS]) -> Option<Call>
    ensures { read_of result ≡ hold_in owner kind (number fields 0) (number fields 1) (number fields 2) (number fields 3) (number fields 4) }
{
    held_of(narrow(owner)?, kind, fields)
}
