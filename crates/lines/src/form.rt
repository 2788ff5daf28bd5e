// The fields behind a kind's word, read as a form says: numbers of given widths, and the word `auto`.
ghost use Rattle.std.specs.Prelude.{◌≡◌, IfSome, length};
ghost use Rattle.lines.specs.Base.{tab, split};
ghost use Rattle.lines.specs.Code.{number_says, field_says, numbers_by, Within, row_of, filled, ReadAs};

use crate::number::read_number;
use crate::parts::find;

// What a field may be: a number up to the given one, or the word `auto`.
#[derive(Clone, Copy, Debug, PartialEq, Eq)]
pub enum Field {
    UpTo(u64),
    Auto,
}

// The numbers of 16, 32 and 64 bits.
pub const N16: Field = Field::UpTo(u16::MAX as u64);

pub const N32: Field = Field::UpTo(u32::MAX as u64);

pub const N64: Field = Field::UpTo(u64::MAX);

// A field's number; 0 for `auto`.
pub fn read_entry(f: &[u8], field: Field) -> Option<u64>
    ensures { number_says result ≡ field_says field f.now }
{
    match field {
        Field::UpTo(most) => read_number(f, most),
        Field::Auto if f == b"auto".as_slice() => Some(0),
        Field::Auto => None,
    }
}

// As many fields as there are places in the form, each read as its place says, and put where it is in the form.
pub fn read_each_into<T: Copy, F: Fn(&[u8], T) -> Option<u64>>(
    rest: &[u8],
    form: &[T],
    read: F,
    into: &mut [u64],
) -> Option<()>
    requires callable { F.IsAlwaysCallable read }
    requires wide { length into.old ≡ length form.now }
    ensures { ReadAs (F.post read) (λ says. filled result into.new ≡ row_of (numbers_by says form.now (split tab rest.now))) }
{
    let mut at: usize = 0;
    // an index: it says whether the line's last field is the form's last
    for i in 0..form.len() {
        let e = find(rest, at, b'\t');
        into[i] = read(&rest[at..e], form[i])?;
        if e == rest.len() {
            if i + 1 == form.len() {
                return Some(());
            }
            return None;
        }
        at = e + 1;
    }
    None
}

// .. of a form of N places.
pub fn read_each<T: Copy, const N: usize, F: Fn(&[u8], T) -> Option<u64>>(
    rest: &[u8],
    form: [T; N],
    read: F,
) -> Option<[u64; N]>
    requires { F.IsAlwaysCallable read }
    ensures { ReadAs (F.post read) (λ says. result ≡ row_of (numbers_by says form (split tab rest.now))) }
{
    let mut n = [0u64; N];
    read_each_into(rest, &form, read, &mut n)?;
    Some(n)
}

// As many fields as the form has, each what the form says: a form whose length is known as the program runs.
pub fn read_numbers_into(rest: &[u8], form: &[Field], into: &mut [u64]) -> Option<()>
    requires { length into.old ≡ length form.now }
    ensures says { filled result into.new ≡ row_of (numbers_by field_says form.now (split tab rest.now)) }
    ensures within { IfSome (filled result into.new) (λ n. Within 0 form.now n) }
{
    read_each_into(rest, form, read_entry, into)
}

// .. of a form of N places.
pub fn read_numbers<const N: usize>(rest: &[u8], form: [Field; N]) -> Option<[u64; N]>
    ensures says { result ≡ row_of (numbers_by field_says form.entry (split tab rest.now)) }
    ensures within { IfSome result (λ n. Within 0 form.entry n) }
{
    read_each(rest, form, read_entry)
}
