// Numbers that fit the fields of a call.
ghost use Rattle.std.specs.Prelude.{◌≡◌, [], ◌∷◌};
ghost use Rattle.definition.specs.Base.{all_of};
ghost use Rattle.flat.specs.Read.{if_read};
ghost use Rattle.numbers.specs.Coding.{below};

use request::call::Ids;
use tables::Id;

// The largest number of 32 bits.
pub const TOP_32: u64 = 4294967295;

// The largest number of 16 bits.
pub const TOP_16: u64 = 65535;

// A number that a field of 16 bits holds.
pub(crate) fn port(n: u64) -> Option<u16>
    ensures { result ≡ if_read (below 16 n) n }
{
    u16::try_from(n).ok()
}

// .. of 32 bits.
pub(crate) fn narrow(n: u64) -> Option<u32>
    ensures { result ≡ if_read (below 32 n) n }
{
    u32::try_from(n).ok()
}

// A range of DeviceIDs, EventIDs or LPIs.
#[tactic(auto, using(flat::proofs::ReadLaws::none_read, flat::proofs::ReadLaws::some_read), unfolding(definition::specs::Base::all_of))]
pub(crate) fn ids<T: Id>(start: u64, end: u64) -> Option<Ids<T>>
    ensures { result ≡ if_read (all_of (below 32) (start ∷ end ∷ [])) (record { start = T.of start; end = T.of end }) }
{
    let start = narrow(start)?;
    let end = narrow(end)?;
    Some(Ids {
        start: T::new(start),
        end: T::new(end),
    })
}
