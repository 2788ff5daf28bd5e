// THE door: the whole state is lent to be changed in place, by any call. And 01's form of it for one request: a thin door over the by-value core.
#![tactic(auto)]

ghost use Rattle.std.specs.Prelude.{◌≡◌};
ghost use Rattle.definition.specs.Tables.{kinds};
ghost use Rattle.definition.specs.Calls.{want, serve};
ghost use Rattle.tables.specs.Views.{state_view};
ghost use Rattle.request.specs.Asked.{request_of};
ghost use Rattle.request.specs.Calls.{call_of};
ghost use Rattle.door.specs.Served.{stop_of, serve_of};

use insert::{Refused, Reply};
use request::Request;
use request::call::Call;
use tables::State;

pub mod apply;

// What stops a call: the pools and the reservations are not sound, or it cannot be read.
pub fn stop(given: bool, c: Call) -> Reply
    ensures { result ≡ stop_of given c }
{
    if !given {
        return Err(Refused::Malformed);
    }
    match c {
        Call::Bad => Err(Refused::BadInput),
        _ => Ok(()),
    }
}

// ---- the doors

// One call on the state lent: a request judges all tables, all other calls the pools and the reservations.
#[tactic(auto, using(crate::proofs::ServeLaws::goes_on, crate::proofs::ServeLaws::served_adds, crate::proofs::ServeLaws::served_stop))]
pub fn serve(s: &mut State, c: Call)
    ensures { state_view s.new ≡ serve_of (call_of c) (state_view s.old) }
{
    if let Call::Want(request) = c {
        plan::allocate(s, request);
        return;
    }
    let stopped = stop(sound::lent::given(s), c);
    if stopped.is_ok() {
        apply::apply(s, c);
    } else {
        apply::say(s, stopped);
    }
}

// 01's form for one request: the state is copied out, the by-value core is called, and what that returns is stored.
pub fn request_in(state: &mut State, request: Request)
    ensures { state_view state.new ≡ serve kinds (want (request_of request)) (state_view state.old) }
{
    *state = allocation::allocate(*state, request);
}
