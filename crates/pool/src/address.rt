// Address pools and reservations: MMIO and port I/O. The file src/resources/pool/address.rs of axdevice 0.8.5 is not in the text given; ruled as the others.
ghost use Rattle.std.specs.Prelude.{◌≡◌};
ghost use Rattle.definition.specs.Tables.{kinds};
ghost use Rattle.definition.specs.Pools.{mmio_pool, pio_pool, mmio_hold, pio_hold};
ghost use Rattle.definition.specs.Request.{automatic, fixed};
ghost use Rattle.definition.specs.Calls.{pool, hold, serve};
ghost use Rattle.tables.specs.Views.{state_view};

use super::{Call, Hold, PoolRange, Use, serve};
use tables::State;

// Adds MMIO addresses used only for automatic allocation.
pub fn add_auto_mmio(s: State, start: u64, end: u64) -> State
    ensures { state_view result ≡ serve kinds (pool automatic (mmio_pool start end)) (state_view s) }
{
    serve(s, Call::Pool(Use::Automatic, PoolRange::Mmio(start, end)))
}

// Allows fixed requests for MMIO addresses inside the range.
pub fn allow_fixed_mmio(s: State, start: u64, end: u64) -> State
    ensures { state_view result ≡ serve kinds (pool fixed (mmio_pool start end)) (state_view s) }
{
    serve(s, Call::Pool(Use::Fixed, PoolRange::Mmio(start, end)))
}

// Reserves a range of MMIO addresses.
pub fn reserve_mmio(s: State, owner: u32, start: u64, end: u64) -> State
    ensures { state_view result ≡ serve kinds (hold owner (mmio_hold start end)) (state_view s) }
{
    serve(s, Call::Hold(owner, Hold::Mmio(start, end)))
}

// Adds ports used only for automatic allocation.
pub fn add_auto_pio(s: State, start: u16, end: u16) -> State
    ensures { state_view result ≡ serve kinds (pool automatic (pio_pool start end)) (state_view s) }
{
    serve(s, Call::Pool(Use::Automatic, PoolRange::Pio(start, end)))
}

// Allows fixed requests for ports inside the range.
pub fn allow_fixed_pio(s: State, start: u16, end: u16) -> State
    ensures { state_view result ≡ serve kinds (pool fixed (pio_pool start end)) (state_view s) }
{
    serve(s, Call::Pool(Use::Fixed, PoolRange::Pio(start, end)))
}

// Reserves a range of ports.
pub fn reserve_pio(s: State, owner: u32, start: u16, end: u16) -> State
    ensures { state_view result ≡ serve kinds (hold owner (pio_hold start end)) (state_view s) }
{
    serve(s, Call::Hold(owner, Hold::Pio(start, end)))
}
