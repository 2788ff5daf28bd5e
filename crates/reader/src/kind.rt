// The kind of a line: the word behind its first ones.
ghost use Rattle.std.specs.Prelude.{◌≡◌, MatchOption, false};
ghost use Rattle.lines.specs.Base.{same};
ghost use Rattle.reader.specs.Kinds.{word_of};

#[derive(Clone, Copy, Debug, PartialEq, Eq)]
pub enum Kind {
    Mmio,
    Pio,
    Host,
    Input,
    Device,
    Event,
    Lpi,
    Msi,
}

const KINDS: [Kind; 8] = [
    Kind::Mmio,
    Kind::Pio,
    Kind::Host,
    Kind::Input,
    Kind::Device,
    Kind::Event,
    Kind::Lpi,
    Kind::Msi,
];

impl Kind {
    // Its word.
    pub fn word(self) -> &'static [u8]
        ensures { result.now ≡ word_of self }
    {
        match self {
            Kind::Mmio => b"mmio".as_slice(),
            Kind::Pio => b"pio".as_slice(),
            Kind::Host => b"host".as_slice(),
            Kind::Input => b"input".as_slice(),
            Kind::Device => b"device".as_slice(),
            Kind::Event => b"event".as_slice(),
            Kind::Lpi => b"lpi".as_slice(),
            Kind::Msi => b"msi".as_slice(),
        }
    }

    fn is(self, word: &[u8]) -> bool
        ensures { result ≡ same word.now (word_of self) }
    {
        word == self.word()
    }

    // The kind of a word, if there is one.
    pub fn of(word: &[u8]) -> Option<Kind>
        ensures { MatchOption result ((k : Kind) → same word.now (word_of k) ≡ false) (λ k. word.now ≡ word_of k) }
    {
        KINDS.iter().copied().find(|kind| kind.is(word))
    }
}
