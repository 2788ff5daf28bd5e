// A range of DeviceIDs, EventIDs or LPIs from plain numbers.
ghost use Rattle.std.specs.Prelude.{◌≡◌};

use request::call::Ids;
use tables::Id;

pub fn ids<T: Id>(start: u32, end: u32) -> Ids<T>
    ensures { result ≡ record { start = T.of start; end = T.of end } }
{
    Ids {
        start: T::new(start),
        end: T::new(end),
    }
}
