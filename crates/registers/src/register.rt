// What one register asks for, or its fault.
ghost use Rattle.std.specs.Prelude.{◌≡◌, ◌^◌, ◌<◌, ◌≤◌};
ghost use Rattle.definition.specs.Base.{◌then◌};
ghost use Rattle.definition.specs.Registers.{register_of, takes_next, memory_mask, pair_mask, port_mask, size_of, memory_want, ports_want, asked};
ghost use Rattle.flat.specs.Flat.{numbers_of_want};
ghost use Rattle.registers.specs.Told.{register_said, want_of, asked_said, next_said};

pub use crate::fault::Fault;
use crate::mask::size_of;
use flat::REQUEST;

// What a word says.
#[derive(Clone, Copy, Debug, PartialEq, Eq)]
pub enum Register {
    Nothing,
    Ports,
    Memory,
    Pair,
    Unknown,
}

// What a register asks for: memory or ports of a size, both of them something; nothing is an Option's None.
#[derive(Clone, Copy, Debug, PartialEq, Eq)]
pub enum Ask {
    Memory(u64),
    Ports(u64),
}

impl Ask {
    // An automatic request's numbers: its alignment is its size.
    pub fn numbers(self, requester: u64, slot: u64) -> [u64; REQUEST]
        ensures { result ≡ numbers_of_want requester slot (want_of self) }
    {
        let (kind, size) = match self {
            Ask::Memory(size) => (1, size),
            Ask::Ports(size) => (2, size),
        };
        [kind, requester, slot, size, size, 0, 0, 0, 0, 0, 0, 0]
    }
}

// By bit 0, and of memory by bits 2 and 1.
#[tactic(auto, unfolding(definition::specs::Registers::register_of, definition::specs::Registers::memory_of))]
pub fn register_of(w: u32) -> Register
    ensures { register_said result ≡ register_of w }
{
    if w == 0 {
        return Register::Nothing;
    }
    if w % 2 == 1 {
        return Register::Ports;
    }
    if w / 2 % 2 == 1 {
        return Register::Unknown;
    }
    if w / 4 % 2 == 1 {
        return Register::Pair;
    }
    Register::Memory
}

// Whether the next word is its high half.
pub fn takes_next(register: Register) -> bool
    ensures { result ≡ takes_next (register_said register) }
{
    matches!(register, Register::Pair)
}

// The mask of ports: upper 16 bits that read zero are taken as ones.
#[tactic(auto, unfolding(definition::specs::Registers::upper_ones))]
pub fn port_mask(w: u32) -> u32
    ensures { result ≡ port_mask w }
{
    if w / 65536 == 0 {
        return w - w % 4 + 4294901760;
    }
    w - w % 4
}

// Ports are as many as 16 bits hold.
#[tactic(auto, unfolding(definition::specs::Base::require))]
pub fn sized_ports(size: u64) -> Result<Option<Ask>, Fault>
    ensures { asked_said result ≡ ports_want size }
{
    if u64::from(u16::MAX) < size {
        return Err(Fault::PortsTooLarge);
    }
    Ok(Some(Ask::Ports(size)))
}

// Ports.
pub fn asked_ports(w: u32) -> Result<Option<Ask>, Fault>
    ensures { asked_said result ≡ (size_of 32 (port_mask w) then ports_want) }
{
    sized_ports(size_of::<32>(u64::from(port_mask(w)))?)
}

// Memory of a mask of so many bits.
fn memory_of<const WIDTH: u32>(mask: u64) -> Result<Option<Ask>, Fault>
    requires width { WIDTH ≤ 64 }
    requires mask { mask < 2 ^ WIDTH }
    ensures { asked_said result ≡ (size_of WIDTH mask then memory_want) }
{
    Ok(Some(Ask::Memory(size_of::<WIDTH>(mask)?)))
}

// Memory of one word.
pub fn asked_memory(w: u32) -> Result<Option<Ask>, Fault>
    ensures { asked_said result ≡ (size_of 32 (memory_mask w) then memory_want) }
{
    memory_of::<32>(u64::from(w - w % 16))
}

// Memory of a pair: its mask is one number of 64 bits.
pub fn asked_pair(w: u32, high: u32) -> Result<Option<Ask>, Fault>
    ensures { asked_said result ≡ (size_of 64 (pair_mask w high) then memory_want) }
{
    memory_of::<64>(u64::from(high) * 4294967296 + u64::from(w - w % 16))
}

// A register, with the next word unless it is the last.
#[tactic(auto, unfolding(definition::specs::Registers::asked))]
pub fn judge(w: u32, next: Option<u32>) -> Result<Option<Ask>, Fault>
    ensures { asked_said result ≡ asked (register_of w) w (next_said next) }
{
    match register_of(w) {
        Register::Nothing => Ok(None),
        Register::Ports => asked_ports(w),
        Register::Memory => asked_memory(w),
        Register::Pair => asked_pair(w, next.ok_or(Fault::BadPair)?),
        Register::Unknown => Err(Fault::BadType),
    }
}
