// DeviceID, EventID and LPI pools and reservations. After src/resources/pool/msi.rs of axdevice 0.8.5, Apache-2.0, see NOTICE; changed.
ghost use Rattle.std.specs.Prelude.{◌≡◌};
ghost use Rattle.definition.specs.Tables.{kinds};
ghost use Rattle.definition.specs.Pools.{msi_pool, device_hold, event_hold, lpi_hold};
ghost use Rattle.definition.specs.Request.{automatic, fixed};
ghost use Rattle.definition.specs.Calls.{pool, hold, serve};
ghost use Rattle.tables.specs.Views.{state_view};

use super::{Call, Devices, Events, Hold, Lpis, PoolRange, Use, serve};
use tables::{DeviceId, State};

// Adds one ITS domain used only for automatic MSI allocation.
pub fn add_auto_msi_domain(
    s: State,
    controller: u32,
    its: u32,
    devices: Devices,
    events: Events,
    lpis: Lpis,
) -> State
    ensures { state_view result ≡ serve kinds (pool automatic (msi_pool controller its devices.start.0 devices.end.0 events.start.0 events.end.0 lpis.start.0 lpis.end.0)) (state_view s) }
{
    serve(
        s,
        Call::Pool(
            Use::Automatic,
            PoolRange::Msi(controller, its, devices, events, lpis),
        ),
    )
}

// Allows fixed DeviceID, EventID and LPI requests in one ITS domain.
pub fn allow_fixed_msi_domain(
    s: State,
    controller: u32,
    its: u32,
    devices: Devices,
    events: Events,
    lpis: Lpis,
) -> State
    ensures { state_view result ≡ serve kinds (pool fixed (msi_pool controller its devices.start.0 devices.end.0 events.start.0 events.end.0 lpis.start.0 lpis.end.0)) (state_view s) }
{
    serve(
        s,
        Call::Pool(
            Use::Fixed,
            PoolRange::Msi(controller, its, devices, events, lpis),
        ),
    )
}

// Reserves a DeviceID range in one ITS namespace.
pub fn reserve_msi_devices(
    s: State,
    owner: u32,
    controller: u32,
    its: u32,
    devices: Devices,
) -> State
    ensures { state_view result ≡ serve kinds (hold owner (device_hold controller its devices.start.0 devices.end.0)) (state_view s) }
{
    serve(
        s,
        Call::Hold(owner, Hold::Devices(controller, its, devices)),
    )
}

// Reserves an EventID range of one DeviceID in one ITS namespace.
pub fn reserve_msi_events(
    s: State,
    owner: u32,
    controller: u32,
    its: u32,
    device: DeviceId,
    events: Events,
) -> State
    ensures { state_view result ≡ serve kinds (hold owner (event_hold controller its device.0 events.start.0 events.end.0)) (state_view s) }
{
    serve(
        s,
        Call::Hold(owner, Hold::Events(controller, its, device, events)),
    )
}

// Reserves an LPI range in one controller namespace.
pub fn reserve_lpis(s: State, owner: u32, controller: u32, lpis: Lpis) -> State
    ensures { state_view result ≡ serve kinds (hold owner (lpi_hold controller lpis.start.0 lpis.end.0)) (state_view s) }
{
    serve(s, Call::Hold(owner, Hold::Lpis(controller, lpis)))
}
