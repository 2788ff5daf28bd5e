// A withdrawal on a lent state: everything that was granted to one requester goes from the owner tables, in place.
#![tactic(auto)]

ghost use Rattle.std.specs.Prelude.{◌≡◌};
ghost use Rattle.definition.specs.Calls.{saying};
ghost use Rattle.definition.specs.Withdraw.{withdraw};
ghost use Rattle.tables.specs.Views.{state_view};
ghost use Rattle.insert.specs.Answers.{heard};
ghost use Rattle.withdraw.specs.Answers.{requester_of, judged_of, shorter_of, found_of};

use inplace::marks::{Marks, peek, reserved, take_out};
use insert::{Refused, Reply};
use tables::State;

// ---- what is judged, over plain values

// A requester's number as owner columns hold it: 0 is nobody, and a requester has 32 bits.
pub fn requester(number: u64) -> Option<u32>
    ensures { result ≡ requester_of number }
{
    u32::try_from(number).ok().filter(|whose| *whose != 0)
}

// 1 where the tables are not sound, 2 where nobody has the number.
pub fn judged(sound: bool, number: u64) -> Result<u32, Refused>
    ensures { result ≡ judged_of sound (requester_of number) }
{
    if sound {
        requester(number).ok_or(Refused::BadInput)
    } else {
        Err(Refused::Malformed)
    }
}

// ---- what came of it

// Whether a table has become shorter.
pub fn shorter(before: Marks, after: Marks) -> bool
    ensures { result ≡ shorter_of before after }
{
    let (before, after) = (before.counts(), after.counts());
    before.iter().zip(after.iter()).any(|(was, is)| is < was)
}

// 13 where none has: nothing was granted to the requester.
pub fn found(before: Marks, after: Marks) -> Reply
    ensures { result ≡ found_of (shorter_of before after) }
{
    if shorter(before, after) {
        Ok(())
    } else {
        Err(Refused::NotFound)
    }
}

// ---- the call

// The rows are taken out: 1, 2, 13. The granted rows are those behind as many as the reservation table has; a reservation stays whoever owns it.
fn taken(s: &mut State, number: u64) -> Reply
    ensures { saying (heard result) (state_view s.new) ≡ withdraw number (state_view s.old) }
{
    let whose = judged(sound::lent::sound(s), number)?;
    let before = peek(s);
    let held = reserved(s);
    take_out(s, held, whose);
    found(before, peek(s))
}

// .. and what came of it is said.
pub fn withdraw(s: &mut State, requester: u64)
    ensures { state_view s.new ≡ withdraw requester (state_view s.old) }
{
    let reply = taken(s, requester);
    door::apply::say(s, reply);
}
