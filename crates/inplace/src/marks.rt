// A lent state: the counts and the numbers that are read of it, and rows taken out of its owner tables, in place.
ghost use Rattle.std.specs.Prelude.{◌≡◌, ◌<◌, get_or, map};
ghost use Rattle.definition.specs.Tables.{row_limit, kinds};
ghost use Rattle.inplace.specs.Cut.{goes, Layout, Closes, of_ranges, ranges_close};
ghost use Rattle.inplace.specs.Marks.{counts_in, marks_by, marks_of, reserved_of, taken_out};

use lent_table::store::set_range;
use tables::{Holders, ROWS, RangeRow, Ranges, State};

// The row counts of seven tables, and the five numbers of the last answer: as they stand in the state, read one by one.
#[derive(Clone, Copy, Debug, PartialEq, Eq)]
pub struct Marks {
    pub mmio: usize,
    pub pio: usize,
    pub input: usize,
    pub host: usize,
    pub device: usize,
    pub event: usize,
    pub lpi: usize,
    pub number: u64,
    pub index: u64,
    pub namespace: u64,
    pub owner: u64,
    pub detail: u64,
}

impl Marks {
    // The counts alone, in the order of the kinds.
    pub fn counts(self) -> [usize; 7]
        ensures { result ≡ map (counts_in self) kinds }
    {
        [
            self.mmio,
            self.pio,
            self.input,
            self.host,
            self.device,
            self.event,
            self.lpi,
        ]
    }
}

// ---- one table: its rows from `m` on that go are taken out, the others close up, and the places that are left are zero

// A table whose rows close up where it stands.
pub trait Rows {
    ghost layout: { Layout Self };

    fn len(&self) -> usize
        ensures { result ≡ layout.count self.now };

    fn owner(&self, k: usize) -> u32
        requires { k < row_limit }
        ensures { result ≡ get_or (layout.owners self.now) k 0 };

    // Row k is taken out.
    fn clear(&mut self, k: usize)
        requires { k < row_limit }
        ensures { self.new ≡ layout.cleared k self.old };

    // Row k goes to its new place.
    fn shift(&mut self, k: usize, to: usize)
        requires row { k < row_limit }
        requires place { to < row_limit }
        ensures { self.new ≡ layout.shifted to k self.old };

    fn cut(&mut self, n: usize)
        ensures { self.new ≡ layout.counted n self.old };

    ghost closes: { Closes layout };
}

impl Rows for Ranges {
    ghost layout = { of_ranges };

    ghost closes = { ranges_close };

    fn len(&self) -> usize {
        self.n
    }

    fn owner(&self, k: usize) -> u32 {
        self.owner[k]
    }

    fn clear(&mut self, k: usize) {
        set_range(self, k, RangeRow::default());
    }

    fn shift(&mut self, k: usize, to: usize) {
        let row = self.row(k);
        self.clear(k);
        set_range(self, to, row);
    }

    fn cut(&mut self, n: usize) {
        self.n = n;
    }
}

// Whether a row goes: with 0 everybody's do.
#[tactic(auto, using(crate::proofs::CutLaws::goes_everybody, crate::proofs::CutLaws::goes_one))]
pub fn goes(owner: u32, whose: u32) -> bool
    ensures { result ≡ goes owner whose }
{
    whose == 0 || owner == whose
}

// A row in front of `m` stays, as a reservation must.
pub fn close<T: Rows>(t: &mut T, m: usize, whose: u32)
    ensures { t.new ≡ T.layout.closed whose m t.old }
{
    let end = t.len().min(ROWS);
    let mut at = m;
    for k in m..end {
        if goes(t.owner(k), whose) {
            t.clear(k);
        } else {
            t.shift(k, at);
            at += 1;
        }
    }
    t.cut(at);
}

// ---- a whole state

// What is read of a state, with the counts of its reservation tables or of its owner tables: no table is copied.
fn read(h: &Holders, s: &State) -> Marks
    ensures { result ≡ marks_by h.now s.now }
{
    Marks {
        mmio: h.mmio.n,
        pio: h.pio.n,
        input: h.input.n,
        host: h.host.n,
        device: h.device.n,
        event: h.event.n,
        lpi: h.lpi.n,
        number: s.number,
        index: s.index,
        namespace: s.namespace,
        owner: s.owner,
        detail: s.detail,
    }
}

// .. the owner tables'.
pub fn peek(s: &State) -> Marks
    ensures { result ≡ marks_of s.now }
{
    read(&s.owners, s)
}

// .. the reservation tables': from there on the owner tables have what was granted.
pub fn reserved(s: &State) -> Marks
    ensures { result ≡ reserved_of s.now }
{
    read(&s.held, s)
}

// Of the rows behind the marks one owner's are taken out of the owner tables, or with 0 all: each table closes up where it stands.
pub fn take_out(s: &mut State, marks: Marks, whose: u32)
    ensures { s.new ≡ taken_out marks whose s.old }
{
    close(&mut s.owners.mmio, marks.mmio, whose);
    close(&mut s.owners.pio, marks.pio, whose);
    close(&mut s.owners.input, marks.input, whose);
    close(&mut s.owners.host, marks.host, whose);
    close(&mut s.owners.device, marks.device, whose);
    close(&mut s.owners.event, marks.event, whose);
    close(&mut s.owners.lpi, marks.lpi, whose);
}
