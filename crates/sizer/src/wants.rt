// The requests' lines: automatic `want` lines for memory and ports.
ghost use Rattle.std.specs.Prelude.{◌/◌, ◌≤◌, length};
ghost use Rattle.flat.specs.Flat.{request_size};
ghost use Rattle.writers.specs.Put.{Room, Puts};
ghost use Rattle.sizer.specs.Code.{ask_line, ask_lines};

use flat::REQUEST;
use writers::put::Page;

// The line of one request: kind, requester, slot, size and alignment are its first numbers.
pub fn put_want(page: &mut Page, r: &[u64])
    requires whole { request_size ≤ length r.now }
    requires room { Room page.old (ask_line r.now) }
    ensures { Puts page.old (ask_line r.now) page.new }
{
    page.put_bytes(b"want");
    page.put_numbers(&r[1..3]);
    page.put_kind(r[0]);
    page.put_numbers(&r[3..5]);
    page.put_bytes(b"\tauto\n");
}

// The lines of as many requests as the list holds.
pub fn put_wants(page: &mut Page, list: &[u64])
    requires { Room page.old (ask_lines (length list.now / request_size) list.now) }
    ensures { Puts page.old (ask_lines (length list.now / request_size) list.now) page.new }
{
    for i in 0..list.len() / REQUEST {
        put_want(page, &list[REQUEST * i..]);
    }
}
