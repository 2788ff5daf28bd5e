// Why a device is refused.
ghost use Rattle.std.specs.Prelude.{◌≡◌};
ghost use Rattle.definition.specs.Base.{tell};
ghost use Rattle.registers.specs.Told.{fault_of};

// Of the call: what it is asked with, and the room that it is lent; of a register: its type, its pair, its mask, its size.
#[derive(Clone, Copy, Debug, PartialEq, Eq)]
pub enum Fault {
    BadInput,
    Short,
    BadType,
    BadPair,
    BadMask,
    PortsTooLarge,
}

impl Fault {
    // The number that it is answered with. (A method and no `From`: a proof reads its clause as it stands.)
    pub fn number(self) -> u64
        ensures { result ≡ (tell 0 (fault_of self)).number }
    {
        match self {
            Fault::BadInput => 2,
            Fault::Short => 11,
            Fault::BadType => 14,
            Fault::BadPair => 15,
            Fault::BadMask => 16,
            Fault::PortsTooLarge => 17,
        }
    }
}
