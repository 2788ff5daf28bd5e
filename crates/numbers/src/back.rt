// What is read back of a state: which part of it a list of numbers asks for, and what was found, told into a lent list; and what an exported plan answers with.
ghost use Rattle.std.specs.Prelude.{◌≡◌};
ghost use Rattle.tables.specs.Views.{state_view};
ghost use Rattle.numbers.specs.Rows.{told};
ghost use Rattle.numbers.specs.Lent.{filled_by, read_told};
ghost use Rattle.numbers.specs.Back.{which_in, found_of, found_told, read_by};
ghost use Rattle.numbers.specs.Reading.{code_of};

use super::row::{Numbers, Which, row};
use super::{number, put, tell};
use flat::REQUEST;
use inplace::marks::{Marks, peek};
use insert::{Refused, Reply};
use tables::{PLAN, RECORD, State};

// What is asked for: the last answer takes one number, a row three.
#[tactic(auto)]
pub fn which(what: &[u64]) -> Result<Which, Refused>
    ensures { result ≡ which_in what.now }
{
    let part = number(what, 0);
    let least = if part == 0 { 1 } else { 3 };
    if what.len() < least {
        return Err(Refused::Short);
    }
    let (kind, row) = (number(what, 1), number(what, 2));
    Ok(Which { part, kind, row })
}

// A row into a lent list: 2 where no table has it, 11 where the list is too short.
#[tactic(auto, using(crate::proofs::FoundLaws::put_row))]
fn tell_row(found: Option<Numbers>, out: &mut [u64]) -> Reply
    ensures { told (code_of result) out.new ≡ found_told (found_of found) out.old }
{
    put(&found.ok_or(Refused::BadInput)?, out)
}

// What was read, told: the last answer, or the row; of a list too short to ask, why.
pub fn tell_read(k: Result<Which, Refused>, m: Marks, x: Option<Numbers>, out: &mut [u64]) -> Reply
    ensures { told (code_of result) out.new ≡ read_by k m (found_of x) out.old }
{
    let k = k?;
    if k.part == 0 {
        tell(m, out)
    } else {
        tell_row(x, out)
    }
}

// Reading back, from the numbers that say what.
#[tactic(auto, using(crate::proofs::FoundLaws::read_short, crate::proofs::FoundLaws::read_whole))]
pub fn read(s: &State, what: &[u64], out: &mut [u64]) -> Reply
    ensures { told (code_of result) out.new ≡ read_told what.now (state_view s.now) out.old }
{
    let k = which(what);
    let found = match k {
        Ok(k) => row(s, k),
        Err(_) => None,
    };
    tell_read(k, peek(s), found, out)
}

// How many numbers of its results a plan has filled: nine a request, of all its requests or of those before the refused one.
#[tactic(auto, using(crate::proofs::LentLaws::filled_all, crate::proofs::LentLaws::filled_far, crate::proofs::LentLaws::filled_front))]
pub fn filled(number: u64, index: u64, long: usize) -> u64
    ensures { result ≡ filled_by number index long }
{
    if number == 0 {
        (RECORD * (long / REQUEST)) as u64
    } else if index <= PLAN as u64 {
        RECORD as u64 * index
    } else {
        0
    }
}
