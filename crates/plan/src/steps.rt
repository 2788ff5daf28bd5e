// The parts of a plan's turns, over plain values: whether the plan fits, whether a request has its turn, the index of its answer, and its record in the results.
ghost use Rattle.std.specs.Prelude.{◌≡◌, ◌&&◌, ◌+◌, ◌*◌, ◌/◌, ◌≤◌, leb, ltb, eqb, length};
ghost use Rattle.definition.specs.Tables.{plan_limit, record_size};
ghost use Rattle.plan.specs.Steps.{index_for, written_at};

use decide::Bases;
use request::Request;
use tables::{PLAN, RECORD};

// No more requests than a plan has, and room for their records: 11 if not.
pub fn fits(n: usize, room: usize) -> bool
    ensures { result ≡ leb n plan_limit && leb (record_size * n) room }
{
    n <= PLAN && RECORD * n <= room
}

// Whether a request has its turn: none was refused so far, and its record has room.
pub fn goes(number: u64, i: usize, room: usize) -> bool
    ensures { result ≡ eqb number 0 && ltb i (room / record_size) }
{
    number == 0 && i < room / RECORD
}

// The index beside the numbers of an answer: a refusal names its request.
pub fn index(granted: Option<Bases>, i: usize) -> u64
    ensures { result ≡ index_for granted i }
{
    match granted {
        Some(_) => 0,
        None => i as u64,
    }
}

// The record of an accepted request in its place; nothing is written of a refused one.
pub fn write(results: &mut [u64], i: usize, r: Request, granted: Option<Bases>)
    requires { record_size * i + record_size ≤ length results.old }
    ensures { results.new ≡ written_at i r granted results.old }
{
    if let Some(bases) = granted {
        let place = RECORD * i;
        let line = allocation::record_of(r, bases);
        allocation::write_record(&mut results[place..], line);
    }
}
