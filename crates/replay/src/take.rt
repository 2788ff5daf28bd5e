// Some of a list's lines taken, in any order.
ghost use Rattle.std.specs.Prelude.{◌≡◌, ◌*◌, min, length};
ghost use Rattle.definition.specs.Plan.{written};
ghost use Rattle.flat.specs.Flat.{request_size};
ghost use Rattle.replay.specs.Again.{taken};

use flat::REQUEST;

// Where a line begins in a list of so many numbers: one past the last, at the list's end.
pub fn begins(i: u64, long: usize) -> usize
    ensures { result ≡ min (request_size * i) long }
{
    REQUEST.saturating_mul(i as usize).min(long)
}

// The lines of these indices, in this order, put in front as far as there is room, and how many numbers they are. An index past the last line takes nothing.
pub fn take(lines: &[u64], selection: &[u64], chosen: &mut [u64]) -> usize
    ensures { (chosen.new ≡ written (taken (length chosen.old) lines.now selection.now) chosen.old)
        × (result ≡ length (taken (length chosen.old) lines.now selection.now)) }
{
    let mut at: usize = 0;
    for i in selection {
        let line = &lines[begins(*i, lines.len())..];
        let n = REQUEST.min(line.len()).min(chosen.len() - at);
        chosen[at..at + n].copy_from_slice(&line[..n]);
        at += n;
    }
    at
}
