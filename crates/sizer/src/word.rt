// A field read as a number: decimal without sign or leading zeros, or hexadecimal behind `0x`. There is no largest one.
ghost use Rattle.std.specs.Prelude.{◌≡◌, ◌≤◌, ◌<◌, MatchOption};
ghost use Rattle.lines.specs.Code.{number_says};
ghost use Rattle.sizer.specs.Words.{digit_value, said_in};
ghost use Rattle.sizer.specs.Code.{capped_said, capped_word};

// The least number that has no 32 bits. It stands for every larger one: all are answered alike, and none is too long to be read.
const CAP: u64 = 4294967296;

// What a digit says, of base sixteen, if it is one.
#[tactic(auto, using(crate::proofs::WordLaws::digit_is, crate::proofs::WordLaws::digit_none))]
pub fn digit_value(b: u8) -> Option<u32>
    ensures { MatchOption result (digit_value b ≡ 16) (λ d. (d ≡ digit_value b) × (d < 16)) }
{
    char::from(b).to_digit(16)
}

// The digits of base ten or sixteen.
#[tactic(auto, using(crate::proofs::WordLaws::capped_stop, crate::proofs::WordLaws::capped_more, crate::proofs::WordLaws::capped_end))]
pub fn read_in(f: &[u8], base: u64) -> Option<u64>
    requires { (0 < base) × (base ≤ 16) }
    ensures { number_says result ≡ capped_said (said_in base 0 f.now) }
{
    let mut v: u64 = 0;
    for b in f {
        let d = u64::from(digit_value(*b)?);
        if base <= d {
            return None;
        }
        v = (v * base + d).min(CAP);
    }
    Some(v)
}

// Behind a leading zero there is nothing, or `x` and digits.
#[tactic(auto, using(crate::proofs::WordLaws::word_empty, crate::proofs::WordLaws::word_zeros, crate::proofs::WordLaws::word_bare, crate::proofs::WordLaws::word_hexadecimal, crate::proofs::WordLaws::word_decimal))]
pub fn read_word(f: &[u8]) -> Option<u64>
    ensures { number_says result ≡ capped_word f.now }
{
    match f {
        [b'0', b'x', digits @ ..] if !digits.is_empty() => read_in(digits, 16),
        [] | [b'0', _, ..] => None,
        _ => read_in(f, 10),
    }
}
