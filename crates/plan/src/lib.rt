// A plan where the state stands: its requests in order, each answered in place, up to the first refusal, which cuts the owner tables back to the counts that they had. No request copies a table, and no state is kept to go back to.
#![tactic(auto)]

ghost use Rattle.std.specs.Prelude.{◌≡◌};
ghost use Rattle.definition.specs.Tables.{kinds};
ghost use Rattle.definition.specs.Calls.{want, serve};
ghost use Rattle.definition.specs.Plan.{lent, allocate_into};
ghost use Rattle.tables.specs.Views.{state_view};
ghost use Rattle.request.specs.Asked.{request_of, said_of};
ghost use Rattle.plan.specs.Steps.{Steady, opened, turned};
ghost use Rattle.plan.specs.Turns.{Judges, judged_said, turns_of, turns_after, back_to};

use choose::Refusal;
use inplace::marks::Marks;
use request::{Request, Said};
use tables::{RECORD, State};

pub mod front;
pub mod list;
pub mod numbers;
pub mod steps;

// ---- what is judged before the first request

// 1, then 11.
#[tactic(auto, using(crate::proofs::JudgeLaws::judged_clear, crate::proofs::JudgeLaws::judged_short, crate::proofs::JudgeLaws::judged_unsound, crate::proofs::JudgeLaws::turns_all, crate::proofs::JudgeLaws::turns_short, crate::proofs::JudgeLaws::turns_unsound))]
pub fn judge(sound: bool, n: usize, room: usize) -> Result<(), Refusal>
    ensures { Judges sound n room result }
{
    if !sound {
        return Err(Refusal::Malformed);
    }
    if !steps::fits(n, room) {
        return Err(Refusal::Short);
    }
    Ok(())
}

// .. its numbers, zeros where nothing is wrong.
pub fn said(judged: Result<(), Refusal>) -> Said
    ensures { said_of result ≡ judged_said judged }
{
    match judged {
        Ok(()) => Said::plain(0),
        Err(refusal) => Said::from(refusal),
    }
}

// How many requests have their turn: all of them, or none.
pub fn turns(judged: Result<(), Refusal>, n: usize) -> usize
    ensures { result ≡ turns_of judged n }
{
    match judged {
        Ok(()) => n,
        Err(_) => 0,
    }
}

// ---- the steps of a plan on a lent state

// One request in its turn: after a refusal nothing is done; else it is answered in place, and its record is written.
pub fn turn(s: &mut State, r: Request, i: usize, results: &mut [u64])
    requires { Steady (state_view s.old) }
    ensures { lent (state_view s.new) results.new ≡ turned i (request_of r) (state_view s.old) results.old }
{
    if steps::goes(s.number, i, results.len()) {
        let granted = inplace::resolve(s, r);
        s.index = steps::index(granted, i);
        steps::write(results, i, r, granted);
    }
}

// After the last: a refusal takes everybody's rows out again of the owner tables, which were as long as `m` says.
pub fn settle(s: &mut State, m: Marks)
    ensures { state_view s.new ≡ back_to m (state_view s.old) }
{
    if s.number != 0 {
        inplace::marks::take_out(s, m, 0);
    }
}

// What is judged before the first request, and said: 1, 11, or five zeros beside the tables.
pub fn open(s: &mut State, n: usize, room: usize) -> Result<(), Refusal>
    ensures said { state_view s.new ≡ opened n room (state_view s.old) }
    ensures turns { turns_of result n ≡ turns_after n (state_view s.new) }
{
    let sound = sound::lent::sound(s);
    let judged = judge(sound, n, room);
    inplace::say(s, said(judged));
    judged
}

// One request with its record: 1, 11, 2 and the rest.
pub fn allocate_into(s: &mut State, r: Request, out: &mut [u64])
    ensures { lent (state_view s.new) out.new ≡ allocate_into kinds (request_of r) (state_view s.old) out.old }
{
    let _judged = open(s, 1, out.len());
    turn(s, r, 0, out);
}

// One request without its record: 1 where the tables are not sound, else as `inplace::resolve`.
pub fn allocate(s: &mut State, r: Request)
    ensures { state_view s.new ≡ serve kinds (want (request_of r)) (state_view s.old) }
{
    if let Ok(()) = open(s, 1, RECORD) {
        inplace::resolve(s, r);
    }
}
