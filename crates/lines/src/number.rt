// A field read as a number: decimal, without sign or leading zeros.
ghost use Rattle.std.specs.Prelude.{◌≡◌};
ghost use Rattle.lines.specs.Numbers.{number};
ghost use Rattle.lines.specs.Code.{number_says};

// The number that a field is, if it is one and at most `most`.
#[tactic(auto, using(crate::proofs::NumberLaws::number_empty, crate::proofs::NumberLaws::number_zeros, crate::proofs::NumberLaws::number_starts, crate::proofs::NumberLaws::from_more, crate::proofs::NumberLaws::from_low, crate::proofs::NumberLaws::from_high, crate::proofs::NumberLaws::from_large, crate::proofs::NumberLaws::from_end, crate::proofs::NumberLaws::from_over))]
pub fn read_number(f: &[u8], most: u64) -> Option<u64>
    ensures { number_says result ≡ number most f.now }
{
    if let [] | [b'0', _, ..] = f {
        return None;
    }
    let mut v: u64 = 0;
    for b in f {
        if !b.is_ascii_digit() {
            return None;
        }
        let d = u64::from(*b - b'0');
        v = v.checked_mul(10)?.checked_add(d)?;
    }
    if v <= most { Some(v) } else { None }
}
