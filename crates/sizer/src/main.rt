// The program that sizes a device: six words of its registers and its requester from standard input, its requests as `want` lines to standard output, or the line `no`. A read that fails prints nothing, and a write that fails ends the program with a status.
#![tactic(auto)]

ghost use Rattle.std.specs.Prelude.{◌+◌, ◌≤◌, ◌<◌, length, take};
ghost use Rattle.writers.specs.Put.{Puts};
ghost use Rattle.standard_input.specs.Reads.{Stopped, Prints};
ghost use Rattle.standard_input.specs.Outcome.{count_of, last_of};
ghost use Rattle.sizer.specs.Words.{size_text_limit};
ghost use Rattle.sizer.specs.Sizes.{sizes_output};
ghost use Rattle.sizer.specs.Code.{sizes_limit};

use crate::line::{TEXT, read_words};
use crate::wants::put_wants;
use flat::REQUEST;
use registers::{MOST, REGISTERS, registers};
use standard_input::{Failed, read_input};
use std::io;
use std::io::Write;
use writers::output::{BAD_LINE, GOT, Refused};
use writers::put::Page;

pub mod word; // word.rt: a field read as a number
pub mod line; // line.rt: the input's one line
pub mod wants; // wants.rt: the requests' lines

// One byte more than the longest input is read, so that a longer one is seen.
const INPUT: usize = TEXT + 1;

// Room for the longest output: a line for each register, none of them longer than the longest `got` line.
const OUTPUT: usize = REGISTERS * GOT;

// The answer to a whole input.
pub fn sizes(text: &[u8], page: &mut Page)
    requires { page.old.at + sizes_limit ≤ length page.old.out.now }
    ensures { Puts page.old (sizes_output text.now) page.new }
{
    let Some(row) = read_words(text) else {
        page.put_no(Refused::bare(BAD_LINE));
        return;
    };
    let mut list = [0u64; MOST];
    match registers(&row, row[REGISTERS], &mut list) {
        Ok(count) => put_wants(page, &list[..REQUEST * count]),
        Err(fault) => page.put_no(Refused::bare(fault.number())),
    }
}

// What the program prints, in front of `out`, and how many bytes it is: all that is decided between reading and writing.
fn printed(buf: &[u8], input: Result<usize, Failed>, out: &mut [u8]) -> usize
    requires size_text_limit_in_bounds { size_text_limit < length buf.now }
    requires stopped { Stopped (length buf.now) (count_of input) (last_of (length buf.now) input) }
    requires sizes_limit_in_bounds { sizes_limit ≤ length out.old }
    ensures { Prints sizes_output (take (count_of input) buf.now) (last_of (length buf.now) input) result out.new }
{
    let Ok(n) = input else {
        return 0;
    };
    let mut page = Page::new(out);
    sizes(&buf[..n], &mut page);
    page.at
}

// The other programs' `main`s read alike: each has its own lengths, and its own `printed`.
fn main(rt: HostRuntime) -> io::Result<()> {
    let mut buf = [0u8; INPUT];
    let input = read_input(&mut rt.stdin(), &mut buf);
    let mut out = [0u8; OUTPUT];
    let m = printed(&buf, input, &mut out);
    rt.stdout().write_all(&out[..m])
}
