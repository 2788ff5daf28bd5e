// Numbers and bytes, put one behind the other into a buffer that the caller lends.
ghost use Rattle.std.specs.Prelude.{◌≡◌, [], ◌∷◌, map};
ghost use Rattle.lines.specs.Numbers.{digits};
ghost use Rattle.lines.specs.Line.{behind, line_with};
ghost use Rattle.writers.specs.Put.{Room, Puts};

// A lent buffer, and the place in it where the next byte is put.
#[derive(Drop)]
pub struct Page<'a> {
    pub out: &'a mut [u8],
    pub at: usize,
}

impl<'a> Page<'a> {
    // Nothing is put yet.
    pub fn new(out: &'a mut [u8]) -> Page<'a>
        ensures same_reference { result.out.ghost_name ≡ out.entry.ghost_name }
        ensures untouched { result.out.now ≡ out.old }
        ensures front { result.at ≡ 0 }
    {
        Page { out, at: 0 }
    }

    // The byte b.
    pub fn put_byte(&mut self, b: u8)
        requires { Room self.old (b ∷ []) }
        ensures { Puts self.old (b ∷ []) self.new }
    {
        self.out[self.at] = b;
        self.at += 1;
    }

    // The bytes w.
    pub fn put_bytes(&mut self, w: &[u8])
        requires { Room self.old w.now }
        ensures { Puts self.old w.now self.new }
    {
        let at = self.at;
        let past = at + w.len();
        // not `copy_from_slice`: it asks a caller in C for `memmove`
        for k in 0..w.len() {
            self.out[at + k] = w[k];
        }
        self.at = past;
    }

    // The digits of n.
    pub fn put_number(&mut self, n: u64)
        requires { Room self.old (digits n) }
        ensures { Puts self.old (digits n) self.new }
    {
        if 10 <= n {
            self.put_number(n / 10);
        }
        self.put_byte(b'0' + (n % 10) as u8);
    }

    // Each number after a tab.
    pub fn put_numbers(&mut self, xs: &[u64])
        requires { Room self.old (behind (map digits xs.now)) }
        ensures { Puts self.old (behind (map digits xs.now)) self.new }
    {
        for x in xs {
            self.put_byte(b'\t');
            self.put_number(*x);
        }
    }

    // A word, numbers behind it, and the newline.
    #[tactic(auto, using(crate::proofs::PutLaws::word_room, crate::proofs::PutLaws::numbers_room, crate::proofs::PutLaws::close_room, crate::proofs::PutLaws::puts_line))]
    pub fn put_line(&mut self, w: &[u8], xs: &[u64])
        requires { Room self.old (line_with w.now (map digits xs.now)) }
        ensures { Puts self.old (line_with w.now (map digits xs.now)) self.new }
    {
        self.put_bytes(w);
        self.put_numbers(xs);
        self.put_byte(b'\n');
    }
}
