// One line of a text, written back: as it stands, or with the numbers granted in place of its last field `auto`.
ghost use Rattle.std.specs.Prelude.{◌≡◌, map, ◌≤◌, length, drop};
ghost use Rattle.definition.specs.Tables.{record_size};
ghost use Rattle.lines.specs.Numbers.{digits};
ghost use Rattle.lines.specs.Line.{behind};
ghost use Rattle.writers.specs.Put.{Room, Puts};
ghost use Rattle.write_back.specs.Bytes.{is_want, ends_in_auto, granted_in, pinned_bytes, Pinnable, used_by};

use tables::RECORD;
use writers::put::Page;

// The bytes of the last field `auto` and of the tab before it.
const AUTO: usize = 5;

// How many digits n has.
#[tactic(auto, using(lines::proofs::DigitLaws::digits_length, lines::proofs::DigitLaws::digits_more_length, lines::proofs::DigitLaws::digits_small_length))]
pub fn digit_count(n: u64) -> usize
    ensures { result ≡ length (digits n) }
{
    let mut rest = n;
    let mut count: usize = 1;
    // not a `for`: the digits are counted off the number
    while 10 <= rest {
        rest /= 10;
        count += 1;
    }
    count
}

// How many bytes a few numbers have, each after a tab.
#[tactic(auto, using(lines::proofs::DigitLaws::digits_length, crate::proofs::LineLaws::tabbed_next, crate::proofs::LineLaws::tabbed_short, crate::proofs::LineLaws::tabbed_end))]
pub fn numbers_length(xs: &[u64]) -> usize
    requires { length xs.now ≤ record_size }
    ensures { result ≡ length (behind (map digits xs.now)) }
{
    let mut count: usize = 0;
    for x in xs {
        count += 1 + digit_count(*x);
    }
    count
}

// Whether the line is a `want`: a `pool` and a `hold` begin otherwise.
#[tactic(auto, unfolding(crate::specs::Bytes::is_want))]
pub fn is_want(line: &[u8]) -> bool
    ensures { result ≡ is_want line.now }
{
    matches!(line, [b'w', ..])
}

// Whether the line's last field is `auto`: every other line ends in a digit.
#[tactic(auto, unfolding(crate::specs::Bytes::ends_in_auto))]
pub fn ends_in_auto(line: &[u8]) -> bool
    ensures { result ≡ ends_in_auto line.now }
{
    matches!(line, [.., b'o'])
}

// The numbers that a record grants, by its kind.
#[tactic(auto, using(crate::proofs::LineLaws::granted_input, crate::proofs::LineLaws::granted_msi, crate::proofs::LineLaws::granted_first))]
pub fn granted(r: &[u64]) -> &[u64]
    requires { record_size ≤ length r.now }
    ensures { result.now ≡ granted_in r.now }
{
    match r[0] {
        3 => &r[4..5],
        5 => &r[5..8],
        _ => &r[3..4],
    }
}

// How many bytes the line has when it is pinned by the record r.
#[tactic(auto, using(crate::proofs::LineLaws::tabbed_short, crate::proofs::LineLaws::granted_few, crate::proofs::LineLaws::pinned_as_is, crate::proofs::LineLaws::pinned_length))]
pub fn pinned_length(line: &[u8], r: &[u64]) -> usize
    requires { Pinnable line.now r.now }
    ensures { result ≡ length (pinned_bytes line.now r.now) }
{
    if ends_in_auto(line) {
        return line.len() - AUTO + numbers_length(granted(r));
    }
    line.len()
}

// Those bytes, put on a page.
pub fn put_pinned(page: &mut Page, line: &[u8], r: &[u64])
    requires pinnable { Pinnable line.now r.now }
    requires room { Room page.old (pinned_bytes line.now r.now) }
    ensures { Puts page.old (pinned_bytes line.now r.now) page.new }
{
    if ends_in_auto(line) {
        page.put_bytes(&line[..line.len() - AUTO]);
        page.put_numbers(granted(r));
        return;
    }
    page.put_bytes(line);
}

// The records of the lines behind this one: a want takes one.
#[tactic(auto, using(crate::proofs::LineLaws::used_one, crate::proofs::LineLaws::used_none))]
pub fn records_behind<'a>(line: &[u8], records: &'a [u64]) -> &'a [u64]
    requires { used_by line.now ≤ length records.now }
    ensures { result.now ≡ drop (used_by line.now) records.now }
{
    if is_want(line) {
        &records[RECORD..]
    } else {
        records
    }
}
