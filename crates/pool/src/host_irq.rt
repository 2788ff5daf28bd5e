// Host IRQ pools and reservations. The file src/resources/pool/host_irq.rs of axdevice 0.8.5 is not in the text given; ruled as the others.
ghost use Rattle.std.specs.Prelude.{◌≡◌, suc, min};
ghost use Rattle.definition.specs.Tables.{top, kinds};
ghost use Rattle.definition.specs.Pools.{host_pool, host_hold};
ghost use Rattle.definition.specs.Request.{automatic, fixed};
ghost use Rattle.definition.specs.Calls.{pool, hold, serve};
ghost use Rattle.tables.specs.Views.{state_view};

use super::{Call, Hold, PoolRange, Use, serve};
use insert::past;
use tables::State;

// Adds host IRQs used only for automatic allocation.
pub fn add_auto_host_irqs(s: State, start: u64, end: u64) -> State
    ensures { state_view result ≡ serve kinds (pool automatic (host_pool start end)) (state_view s) }
{
    serve(s, Call::Pool(Use::Automatic, PoolRange::Host(start, end)))
}

// Allows fixed requests for host IRQs inside the range.
pub fn allow_fixed_host_irqs(s: State, start: u64, end: u64) -> State
    ensures { state_view result ≡ serve kinds (pool fixed (host_pool start end)) (state_view s) }
{
    serve(s, Call::Pool(Use::Fixed, PoolRange::Host(start, end)))
}

// Reserves a range of host IRQs.
pub fn reserve_host_irqs(s: State, owner: u32, start: u64, end: u64) -> State
    ensures { state_view result ≡ serve kinds (hold owner (host_hold start end)) (state_view s) }
{
    serve(s, Call::Hold(owner, Hold::Host(start, end)))
}

// Reserves one host IRQ: a range of one number.
pub fn reserve_host_irq(s: State, owner: u32, irq: u64) -> State
    ensures { state_view result ≡ serve kinds (hold owner (host_hold irq (min (suc irq) (top 64)))) (state_view s) }
{
    serve(s, Call::Hold(owner, Hold::Host(irq, past(irq))))
}
