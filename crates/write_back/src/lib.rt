// The pinned text: an accepted plan's text with the numbers granted in place of each last field `auto`.
#![tactic(auto)]

ghost use Rattle.std.specs.Prelude.{◌≡◌, length};
ghost use Rattle.lines.specs.Base.{newline, split};
ghost use Rattle.lines.specs.Back.{pinning, pins_to};
ghost use Rattle.writers.specs.Put.{Room, Puts};
ghost use Rattle.write_back.specs.Bytes.{back_bytes, Writable};
ghost use Rattle.write_back.specs.Answer.{answer_of, count_of, Numbered};

use crate::line::{pinned_length, put_pinned, records_behind};
use lines::parts::cut;
use text::{RESULTS, TEXT, read};
use writers::output::{BAD_LINE, Refused, SHORT};
use writers::put::Page;

pub mod line;

// How many bytes the pinned text has.
pub fn back_length(text: &[u8], results: &[u64]) -> usize
    requires { Writable text.now results.now }
    ensures { result ≡ length (back_bytes (split newline text.now) results.now) }
{
    let mut rest = text;
    let mut records = results;
    let mut count: usize = 0;
    // not a `for`: a line is cut off, and what is behind it goes on
    while let Some((line, behind)) = cut(rest, b'\n') {
        count += pinned_length(line, records) + 1;
        records = records_behind(line, records);
        rest = behind;
    }
    count
}

// Those bytes, put on a page. A line that no newline ends is left out.
pub fn put_back(page: &mut Page, text: &[u8], results: &[u64])
    requires writable { Writable text.now results.now }
    requires room { Room page.old (back_bytes (split newline text.now) results.now) }
    ensures { Puts page.old (back_bytes (split newline text.now) results.now) page.new }
{
    let mut rest = text;
    let mut records = results;
    // as above: one counts and the other writes, since nothing is written before the length is known
    while let Some((line, behind)) = cut(rest, b'\n') {
        put_pinned(page, line, records);
        page.put_byte(b'\n');
        records = records_behind(line, records);
        rest = behind;
    }
}

// A plan's text, read and planned on fresh tables, and written back with every answer in its want: how many bytes that are. The text's own refusal comes first; then 11
// where the pinned text is longer than `out` or than a text may be. Nothing is written before all is known.
pub fn pin_text(text: &[u8], out: &mut [u8]) -> Result<usize, Refused>
    ensures answer { pinning (answer_of result) (count_of result) out.new ≡ pins_to text.now out.old }
    ensures numbered { Numbered result }
{
    if TEXT < text.len() {
        return Err(Refused::bare(BAD_LINE));
    }
    let mut results = [0u64; RESULTS];
    let t = read(text, &mut results);
    if let Some(no) = t.refused() {
        return Err(no);
    }
    let n = back_length(text, &results);
    if out.len() < n || TEXT < n {
        return Err(Refused::bare(SHORT));
    }
    let mut page = Page::new(out);
    put_back(&mut page, text, &results);
    Ok(page.at)
}
