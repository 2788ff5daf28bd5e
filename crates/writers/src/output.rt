// The lines that the program writes.
ghost use Rattle.std.specs.Prelude.{◌≡◌, ◌∷◌, ◌≤◌, length};
ghost use Rattle.definition.specs.Tables.{record_size};
ghost use Rattle.lines.specs.Base.{tab};
ghost use Rattle.lines.specs.Output.{carried_by, got_line, end_line};
ghost use Rattle.writers.specs.Put.{Room, Puts};
ghost use Rattle.writers.specs.Refuses.{refused_line};

use crate::put::Page;

// A number behind its tab: at most the twenty digits of 64 bits.
const FIELD: usize = 21;

// The longest `got` line, which is MSI's: `got`, requester and slot, the word behind its tab, six numbers, the newline.
pub const GOT: usize = 3 + 2 * FIELD + 4 + 6 * FIELD + 1;

// The longest `end` line.
pub const END: usize = 3 + FIELD + 1;

// The numbers of two refusals: of a line that says no call, and of an output that has no room.
pub const BAD_LINE: u64 = 10;

pub const SHORT: u64 = 11;

// What a `no` line says: the refused line's number, and what it was answered. (A plain number: the definition's `no_line` prints any.)
#[derive(Clone, Copy, Debug, PartialEq, Eq)]
pub struct Refused {
    pub line: u64,
    pub number: u64,
    pub namespace: u64,
    pub owner: u64,
    pub detail: u64,
}

impl Refused {
    // A refusal that no line of the text brought: line 0, and a number alone.
    pub fn bare(number: u64) -> Refused
        ensures { result ≡ record { line = 0; number = number; namespace = 0; owner = 0; detail = 0 } }
    {
        Refused {
            line: 0,
            number,
            namespace: 0,
            owner: 0,
            detail: 0,
        }
    }
}

// What a record of kind k is called, behind its tab, and how many numbers it carries.
#[tactic(auto, unfolding(lines::specs::Output::carried_by))]
pub fn carried(k: u64) -> (&'static [u8], usize)
    ensures word { result.0.now ≡ tab ∷ (carried_by k).word }
    ensures count { result.1 ≡ (carried_by k).count }
{
    match k {
        1 => (b"\tmmio", 2),
        2 => (b"\tpio", 2),
        3 => (b"\tinput", 4),
        4 => (b"\thost", 1),
        _ => (b"\tmsi", 6),
    }
}

impl Page<'_> {
    // A tab, and the word of kind k.
    pub fn put_kind(&mut self, k: u64)
        requires { Room self.old (tab ∷ (carried_by k).word) }
        ensures { Puts self.old (tab ∷ (carried_by k).word) self.new }
    {
        let (word, _) = carried(k);
        self.put_bytes(word);
    }

    // The `got` line of a record.
    pub fn put_got(&mut self, r: &[u64])
        requires whole { record_size ≤ length r.now }
        requires room { Room self.old (got_line r.now) }
        ensures { Puts self.old (got_line r.now) self.new }
    {
        let (word, count) = carried(r[0]);
        self.put_bytes(b"got");
        self.put_numbers(&r[1..3]);
        self.put_bytes(word);
        self.put_numbers(&r[3..3 + count]);
        self.put_byte(b'\n');
    }

    // The `end` line: how many requests were answered.
    #[tactic(auto, unfolding(lines::specs::Output::end_line))]
    pub fn put_end(&mut self, n: u64)
        requires { Room self.old (end_line n) }
        ensures { Puts self.old (end_line n) self.new }
    {
        self.put_line(b"end", &[n]);
    }

    // The `no` line.
    #[tactic(auto, unfolding(lines::specs::Output::no_line))]
    pub fn put_no(&mut self, r: Refused)
        requires { Room self.old (refused_line r) }
        ensures { Puts self.old (refused_line r) self.new }
    {
        self.put_line(b"no", &[r.line, r.number, r.namespace, r.owner, r.detail]);
    }
}
