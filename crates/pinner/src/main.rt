// The program that pins a plan: its text from standard input, the text with every answer written back to standard output, or the line `no`. A read that fails prints nothing, and a write that fails ends the program with a status.
#![tactic(auto)]

ghost use Rattle.std.specs.Prelude.{◌≡◌, ◌≤◌, ◌<◌, length, take};
ghost use Rattle.lines.specs.Base.{text_limit};
ghost use Rattle.lines.specs.Back.{pin_output};
ghost use Rattle.standard_input.specs.Reads.{Stopped, Prints};
ghost use Rattle.standard_input.specs.Outcome.{count_of, last_of};

use standard_input::{Failed, read_input};
use std::io;
use std::io::Write;
use text::TEXT;
use write_back::pin_text;
use writers::put::Page;

// One byte more than the longest text is read, so that a longer one is seen.
const INPUT: usize = TEXT + 1;

// The answer to a whole text, in front of `out`: the text with every answer written back, or the line `no`.
fn pinned(text: &[u8], out: &mut [u8]) -> usize
    requires { text_limit ≤ length out.old }
    ensures inside { result ≤ length out.new }
    ensures front { take result out.new ≡ pin_output text.now }
{
    match pin_text(text, out) {
        Ok(n) => n,
        Err(no) => {
            let mut page = Page::new(out);
            page.put_no(no);
            page.at
        }
    }
}

// What the program prints, in front of `out`, and how many bytes it is: all that is decided between reading and writing.
fn printed(buf: &[u8], input: Result<usize, Failed>, out: &mut [u8]) -> usize
    requires text_limit_in_bounds { text_limit < length buf.now }
    requires stopped { Stopped (length buf.now) (count_of input) (last_of (length buf.now) input) }
    requires text_limit_in_bounds_2 { text_limit ≤ length out.old }
    ensures { Prints pin_output (take (count_of input) buf.now) (last_of (length buf.now) input) result out.new }
{
    match input {
        Ok(n) => pinned(&buf[..n], out),
        Err(_) => 0,
    }
}

// The other programs' `main`s read alike: each has its own lengths, and its own `printed`.
fn main(rt: HostRuntime) -> io::Result<()> {
    let mut buf = [0u8; INPUT];
    let input = read_input(&mut rt.stdin(), &mut buf);
    let mut out = [0u8; TEXT];
    let m = printed(&buf, input, &mut out);
    rt.stdout().write_all(&out[..m])
}
