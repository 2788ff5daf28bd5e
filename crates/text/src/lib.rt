// The text call: a plan's text is answered by the bytes of 01's lines.
#![tactic(auto)]

ghost use Rattle.std.specs.Prelude.{◌≡◌, ◌*◌, ◌≤◌, length};
ghost use Rattle.definition.specs.Tables.{record_size};
ghost use Rattle.definition.specs.Calls.{fresh};
ghost use Rattle.lines.specs.Output.{got_lines};
ghost use Rattle.writers.specs.Put.{Room, Puts};
ghost use Rattle.text.specs.Step.{results_size, Fed};
ghost use Rattle.text.specs.Respond.{tables_after, answered_by, responds_to};
ghost use Rattle.text.specs.Reply.{replied_by};

use crate::feed::sofar::Sofar;
use tables::{PLAN, RECORD};
use writers::output::{BAD_LINE, END, GOT, Refused};
use writers::put::Page;

pub mod feed;

// The longest output that any text has: the longest `got` line for each of the most wants, and `end`.
pub const OUTPUT: usize = PLAN * GOT + END;

// The longest text.
pub const TEXT: usize = 65536;

// Numbers of the results of the longest plan.
pub const RESULTS: usize = RECORD * PLAN;

// The buffer is too short for the longest output. That is refusal 11, and nothing is written.
#[derive(Clone, Copy, Debug, PartialEq, Eq)]
pub struct Short;

// A text's lines, taken in order on fresh tables: the one state that they are taken on stands here.
pub fn read(text: &[u8], results: &mut [u64]) -> Sofar
    requires { length results.old ≡ results_size }
    ensures { Fed text.now fresh results.old result (tables_after text.now) results.new }
{
    let mut s = tables::fresh();
    feed::feed(&mut s, text, results)
}

// The `got` lines of the first n records.
pub fn put_gots(page: &mut Page, n: usize, results: &[u64])
    requires whole { record_size * n ≤ length results.now }
    requires room { Room page.old (got_lines n results.now) }
    ensures { Puts page.old (got_lines n results.now) page.new }
{
    for i in 0..n {
        page.put_got(&results[RECORD * i..]);
    }
}

// The answer to a text whose lines are taken: a `got` line for each want and `end`; or the one `no` line, so nothing is written before the last line is.
pub fn answer(page: &mut Page, t: Sofar, results: &[u64])
    requires whole { record_size * t.wants ≤ length results.now }
    requires room { Room page.old (answered_by t results.now) }
    ensures { Puts page.old (answered_by t results.now) page.new }
{
    if let Some(no) = t.refused() {
        page.put_no(no);
        return;
    }
    put_gots(page, t.wants, results);
    page.put_end(t.wants as u64);
}

// How many bytes were written. A text over the limit is 10 at line 0, before all else.
pub fn respond(text: &[u8], out: &mut [u8]) -> Result<usize, Short>
    ensures { replied_by result out.new ≡ responds_to text.now out.old }
{
    if out.len() < OUTPUT {
        return Err(Short);
    }
    let mut page = Page::new(out);
    if TEXT < text.len() {
        page.put_no(Refused::bare(BAD_LINE));
        return Ok(page.at);
    }
    let mut results = [0u64; RESULTS];
    let t = read(text, &mut results);
    answer(&mut page, t, &results);
    Ok(page.at)
}
