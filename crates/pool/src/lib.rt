// The calls that add pools and reservations, and start, by the names of axdevice's pool modules: a state by value is lent to the door. For test programs. After src/resources/pool/mod.rs of axdevice 0.8.5, Apache-2.0, see NOTICE; changed.
#![tactic(auto)]

ghost use Rattle.std.specs.Prelude.{◌≡◌};
ghost use Rattle.definition.specs.Tables.{kinds};
ghost use Rattle.definition.specs.Pools.{pair_hold};
ghost use Rattle.definition.specs.Calls.{hold, start, serve};
ghost use Rattle.tables.specs.Views.{state_view};
ghost use Rattle.request.specs.Calls.{call_of};
ghost use Rattle.door.specs.Served.{serve_of};

pub use request::call::{Call, Devices, Events, Hold, Ids, Lpis, PoolRange, Use};
use tables::State;

pub mod address;
pub mod host_irq;
pub mod message;
pub mod wired;

// Any call on a state by value: the state is lent from here.
pub fn serve(mut s: State, c: Call) -> State
    ensures { state_view result ≡ serve_of (call_of c) (state_view s) }
{
    door::serve(&mut s, c);
    s
}

// Atomically reserves one physical wired interrupt at both boundaries: the input, Exclusive, and the host IRQ.
pub fn reserve_wired_host_irq(
    s: State,
    owner: u32,
    controller: u32,
    input: u64,
    irq: u64,
    trigger: u32,
) -> State
    ensures { state_view result ≡ serve kinds (hold owner (pair_hold controller input trigger irq)) (state_view s) }
{
    serve(
        s,
        Call::Hold(owner, Hold::Pair(controller, input, trigger, irq)),
    )
}

// Starts: the owner tables become copies of the reservations, and all grants are forgotten.
pub fn start(s: State) -> State
    ensures { state_view result ≡ serve kinds start (state_view s) }
{
    serve(s, Call::Start)
}
