// Pools and reservations of controller inputs. After src/resources/pool/wired.rs of axdevice 0.8.5, Apache-2.0, see NOTICE; changed.
ghost use Rattle.std.specs.Prelude.{◌≡◌};
ghost use Rattle.definition.specs.Tables.{kinds};
ghost use Rattle.definition.specs.Pools.{input_pool, input_hold};
ghost use Rattle.definition.specs.Request.{automatic, fixed};
ghost use Rattle.definition.specs.Calls.{pool, hold, serve};
ghost use Rattle.tables.specs.Views.{state_view};

use super::{Call, Hold, PoolRange, Use, serve};
use tables::State;

// Adds inputs of a controller used only for automatic allocation.
pub fn add_auto_controller_inputs(s: State, controller: u32, start: u64, end: u64) -> State
    ensures { state_view result ≡ serve kinds (pool automatic (input_pool controller start end)) (state_view s) }
{
    serve(
        s,
        Call::Pool(Use::Automatic, PoolRange::Input(controller, start, end)),
    )
}

// Allows fixed requests for inputs of a controller inside the range.
pub fn allow_fixed_controller_inputs(s: State, controller: u32, start: u64, end: u64) -> State
    ensures { state_view result ≡ serve kinds (pool fixed (input_pool controller start end)) (state_view s) }
{
    serve(
        s,
        Call::Pool(Use::Fixed, PoolRange::Input(controller, start, end)),
    )
}

// Reserves one input for architecture or controller internals.
pub fn reserve_controller_input(
    s: State,
    owner: u32,
    controller: u32,
    input: u64,
    trigger: u32,
    sharing: u32,
) -> State
    ensures { state_view result ≡ serve kinds (hold owner (input_hold controller input trigger sharing)) (state_view s) }
{
    serve(
        s,
        Call::Hold(owner, Hold::Input(controller, input, trigger, sharing)),
    )
}
