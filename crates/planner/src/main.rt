// The plan-reading program: a plan's text from standard input, its answer to standard output. A read that fails prints nothing, and a write that fails ends the program with a status.
#![tactic(auto)]

ghost use Rattle.std.specs.Prelude.{◌≤◌, ◌<◌, length, take};
ghost use Rattle.lines.specs.Base.{text_limit};
ghost use Rattle.lines.specs.Output.{output_limit};
ghost use Rattle.lines.specs.Text.{output};
ghost use Rattle.standard_input.specs.Reads.{Stopped, Prints};
ghost use Rattle.standard_input.specs.Outcome.{count_of, last_of};

use standard_input::{Failed, read_input};
use std::io;
use std::io::Write;
use text::{OUTPUT, TEXT, respond};

// One byte more than the longest text is read, so that a longer one is seen.
const INPUT: usize = TEXT + 1;

// What the program prints, in front of `out`, and how many bytes it is: all that is decided between reading and writing.
fn printed(buf: &[u8], input: Result<usize, Failed>, out: &mut [u8]) -> usize
    requires text_limit_in_bounds { text_limit < length buf.now }
    requires stopped { Stopped (length buf.now) (count_of input) (last_of (length buf.now) input) }
    requires output_limit_in_bounds { output_limit ≤ length out.old }
    ensures { Prints output (take (count_of input) buf.now) (last_of (length buf.now) input) result out.new }
{
    match input {
        Ok(n) => respond(&buf[..n], out).unwrap_or(0),
        Err(_) => 0,
    }
}

// The other programs' `main`s read alike: each has its own lengths, and its own `printed`.
fn main(rt: HostRuntime) -> io::Result<()> {
    let mut buf = [0u8; INPUT];
    let input = read_input(&mut rt.stdin(), &mut buf);
    let mut out = [0u8; OUTPUT];
    let m = printed(&buf, input, &mut out);
    rt.stdout().write_all(&out[..m])
}
