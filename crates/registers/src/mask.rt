// The mask of a register: its ones must be contiguous from the top, and what it lacks is the size.
ghost use Rattle.std.specs.Prelude.{◌≡◌, ◌-◌, ◌^◌, ◌<◌, ◌≤◌};
ghost use Rattle.definition.specs.Registers.{size_of};
ghost use Rattle.registers.specs.Told.{size_said};

use crate::fault::Fault;

// What a mask of so many bits lacks, whatever its ones: inverted and one added.
#[tactic(auto, using(crate::proofs::SizeLaws::ones_of, crate::proofs::SizeLaws::lacking_is))]
pub fn lacking<const WIDTH: u32>(mask: u64) -> u64
    requires width { WIDTH ≤ 64 }
    requires some { 0 < mask }
    requires mask { mask < 2 ^ WIDTH }
    ensures { result ≡ 2 ^ WIDTH - mask }
{
    ((u64::MAX >> (64 - WIDTH)) - mask).wrapping_add(1)
}

// Of so many bits: not zero, and the ones from the top and the zeros below them are all its bits; then what it lacks is the size.
#[tactic(auto, using(crate::proofs::SizeLaws::size_none, crate::proofs::SizeLaws::lacking_bad, crate::proofs::SizeLaws::lacking_good))]
pub fn size_of<const WIDTH: u32>(mask: u64) -> Result<u64, Fault>
    requires width { WIDTH ≤ 64 }
    requires mask { mask < 2 ^ WIDTH }
    ensures { size_said result ≡ size_of WIDTH mask }
{
    if mask == 0 {
        return Err(Fault::BadMask);
    }
    let size = lacking::<WIDTH>(mask);
    let inverted = size - 1;
    if inverted.leading_zeros() + mask.trailing_zeros() == 64 {
        return Ok(size);
    }
    Err(Fault::BadMask)
}
