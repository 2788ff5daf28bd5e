// The calls as plain numbers, for callers outside: a list of numbers is read as a call, and the call is served where the state stands.
#![tactic(auto)]

ghost use Rattle.std.specs.Prelude.{◌≡◌, get_or};
ghost use Rattle.definition.specs.Plan.{lent};
ghost use Rattle.tables.specs.Views.{state_view};
ghost use Rattle.request.specs.Calls.{call_of};
ghost use Rattle.numbers.specs.Face.{adding_at};
ghost use Rattle.numbers.specs.Rows.{told, five_told, answer_told};
ghost use Rattle.numbers.specs.Lent.{call_told};
ghost use Rattle.numbers.specs.Back.{put_told};
ghost use Rattle.numbers.specs.Reading.{Reads, served_as, short_of, judged_by, code_of, told_by};

use crate::coding::{adding_of, call_size};
use inplace::marks::{Marks, peek};
use insert::{Refused, Reply};
use request::call::Call;
use tables::State;

pub mod back; // back.rt: what is read back, told
pub mod coding; // coding.rt: a call that adds or starts
pub mod row; // row.rt: a row read back

// The numbers of an answer: number, index, namespace, owner, detail.
pub const ANSWER: usize = 5;

// What a list of numbers says: a withdrawal, with its requester's number, or any other call.
#[derive(Clone, Copy, Debug, PartialEq, Eq)]
pub enum Read {
    Withdraw(u64),
    Call(Call),
}

// A list that is too short for its call: a request, a withdrawal, or a call that adds or starts.
#[derive(Clone, Copy, Debug, PartialEq, Eq)]
pub enum Short {
    Request,
    Withdrawal,
    Adding,
}

// ---- a list of numbers

// The j-th number, 0 past the end.
pub fn number(numbers: &[u64], j: usize) -> u64
    ensures { result ≡ get_or numbers.now j 0 }
{
    numbers.get(j).copied().unwrap_or(0)
}

// A call that adds or starts.
fn adding_at(numbers: &[u64]) -> Call
    ensures { call_of result ≡ adding_at numbers.now }
{
    let first = number(numbers, 0);
    let second = number(numbers, 1);
    let kind = number(numbers, 2);
    let fields = std::array::from_fn(|j| number(numbers, j + 3));
    adding_of(first, second, kind, fields)
}

// A call, read as far as its numbers go.
#[tactic(auto, using(crate::proofs::CallLaws::long_to_ask, crate::proofs::CallLaws::asks_is, crate::proofs::CallLaws::adds_is))]
pub fn read_call(numbers: &[u64]) -> Result<Read, Short>
    ensures { Reads numbers.now result }
{
    let first = number(numbers, 0);
    if numbers.len() < call_size(first, number(numbers, 2)) {
        return Err(match first {
            4 => Short::Request,
            5 => Short::Withdrawal,
            _ => Short::Adding,
        });
    }
    Ok(match first {
        4 => Read::Call(Call::Want(flat::request_at(&numbers[1..], 0))),
        5 => Read::Withdraw(number(numbers, 1)),
        _ => Read::Call(adding_at(numbers)),
    })
}

// 11 for a list that is too short, 1 before that where the tables are not sound.
pub fn too_short(judged: bool) -> Reply
    ensures { result ≡ short_of judged }
{
    if judged {
        Err(Refused::Short)
    } else {
        Err(Refused::Malformed)
    }
}

// ---- on a lent state

// Numbers in front of a lent list: 11 where it is too short.
#[tactic(auto, using(crate::proofs::FoundLaws::put_short, crate::proofs::FoundLaws::put_all))]
fn put(line: &[u64], out: &mut [u64]) -> Reply
    ensures { told (code_of result) out.new ≡ put_told line.now out.old }
{
    let n = line.len();
    if out.len() < n {
        return Err(Refused::Short);
    }
    out[..n].copy_from_slice(line);
    Ok(())
}

// .. the five numbers of an answer.
#[tactic(auto, using(crate::proofs::FoundLaws::put_five))]
pub fn tell_five(five: [u64; ANSWER], out: &mut [u64]) -> Reply
    ensures { told (code_of result) out.new ≡ five_told five out.old }
{
    put(&five, out)
}

// .. those that were read of a state.
#[tactic(auto, unfolding(crate::specs::Rows::answer_told))]
pub fn tell(m: Marks, out: &mut [u64]) -> Reply
    ensures { told (code_of result) out.new ≡ answer_told (told_by m) out.old }
{
    tell_five([m.number, m.index, m.namespace, m.owner, m.detail], out)
}

impl Short {
    // Whether the tables that such a call judges are sound: all, or the pools and the reservations alone.
    fn judged(self, s: &State) -> bool
        ensures { result ≡ judged_by self (state_view s.now) }
    {
        match self {
            Short::Request | Short::Withdrawal => sound::lent::sound(s),
            Short::Adding => sound::lent::given(s),
        }
    }
}

// What was read, served.
#[tactic(auto, unfolding(crate::specs::Reading::served_as))]
pub fn serve_as(s: &mut State, read: Result<Read, Short>)
    ensures { state_view s.new ≡ served_as read (state_view s.old) }
{
    match read {
        Ok(Read::Withdraw(requester)) => withdraw::withdraw(s, requester),
        Ok(Read::Call(call)) => door::serve(s, call),
        Err(short) => {
            let judged = short.judged(s);
            door::apply::say(s, too_short(judged));
        }
    }
}

// A call that adds or starts, one request, or a withdrawal, from its numbers, where the state stands: 1, 11, 2 and the rest. Its answer's five numbers are told where the list has room for them.
pub fn call_in(state: &mut State, numbers: &[u64], answer: &mut [u64])
    ensures { lent (state_view state.new) answer.new ≡ call_told numbers.now (state_view state.old) answer.old }
{
    let read = read_call(numbers);
    serve_as(state, read);
    let _ = tell(peek(state), answer);
}
