// Standard input, read until the buffer is full, the input ends or a read fails.
#![tactic(auto)]

ghost use Rattle.std.specs.Prelude.{◌≡◌, pos, length, take};
ghost use Rattle.std.specs.Io.KnownBytes.{Consumes, IsAtEnd};
ghost use Rattle.standard_input.specs.Reads.{Stopped};
ghost use Rattle.standard_input.specs.Outcome.{count_of, last_of};

use std::io::Read;

// A read failed, behind n bytes.
#[derive(Clone, Copy, Debug, PartialEq, Eq)]
pub struct Failed {
    pub n: usize,
}

// The bytes of a reader, and how many: fewer than the buffer has where the input ends. Of a reader whose bytes are known they are its first ones, and at its end none is left.
pub fn read_input<R: Read>(reader: &mut R, buf: &mut [u8]) -> Result<usize, Failed>
    ensures stopped { Stopped (length buf.new) (count_of result) (last_of (length buf.new) result) }
    ensures front { Consumes (R.remaining reader.old) (R.remaining reader.new) (take (count_of result) buf.new) }
    ensures end { last_of (length buf.new) result ≡ pos 0 → IsAtEnd (R.remaining reader.new) }
{
    let mut n: usize = 0;
    // not a `for`: a read says how far it comes
    while n < buf.len() {
        let Ok(got) = reader.read(&mut buf[n..]) else {
            return Err(Failed { n });
        };
        if got == 0 {
            return Ok(n);
        }
        n += got;
    }
    Ok(n)
}
