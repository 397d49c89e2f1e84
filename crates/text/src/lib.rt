// Text put into a lent buffer.
#![tactic(auto, using(crate::proofs::PutLaws::writing))]

ghost use Rattle.std.specs.Prelude.{◌≡◌, ◌∷◌, [], ◌++◌};
ghost use Rattle.text.specs.Dec.{dec};
ghost use Rattle.text.specs.Put.{Takes, Wrote, added, begun};

// A lent buffer, of which the bytes below `at` are written.
// No fmt::Write: what write! puts is promised only where it answers Ok, and the listing's clauses speak of every call.
pub struct Text<'a> {
    pub buf: &'a mut [u8],
    pub at: usize,
}

impl<'a> Text<'a> {
    pub fn new(buf: &'a mut [u8]) -> Text<'a>
        ensures { result ≡ begun buf.entry }
    {
        Text { buf, at: 0 }
    }

    #[tactic(auto, using(crate::proofs::PutLaws::put_byte), unfolding(crate::specs::Put::added))]
    pub fn byte(&mut self, b: u8)
        requires { Takes self.old (b ∷ []) }
        ensures { self.new ≡ added self.old (b ∷ []) }
    {
        self.buf[self.at] = b;
        self.at += 1;
    }

    #[tactic(auto, unfolding(crate::specs::Put::added))]
    pub fn bytes(&mut self, src: &[u8])
        requires { Takes self.old src.now }
        ensures { self.new ≡ added self.old src.now }
    {
        let end = self.at + src.len();
        self.buf[self.at..end].copy_from_slice(src);
        self.at = end;
    }

    // `n` in decimal, digit by digit as its definition has it: `itoa` would write it into a buffer of its own to be copied from, and be no plainer.
    #[tactic(auto, using(crate::proofs::PutLaws::writing, crate::proofs::DecLaws::dec_small, crate::proofs::DecLaws::dec_more))]
    pub fn decimal(&mut self, n: u32)
        requires { Takes self.old (dec n) }
        ensures { self.new ≡ added self.old (dec n) }
    {
        if n < 10 {
            self.byte(b'0' + n as u8);
            return;
        }
        self.decimal(n / 10);
        self.byte(b'0' + (n % 10) as u8);
    }

    // A word, and a number after it.
    pub fn word_decimal(&mut self, word: &[u8], n: u32)
        requires { Takes self.old (word.now ++ dec n) }
        ensures text { self.new ≡ added self.old (word.now ++ dec n) }
        ensures wrote { Wrote self.old.buf.now self.old.at (word.now ++ dec n) self.new.buf.now self.new.at }
    {
        self.bytes(word);
        self.decimal(n);
    }

    // How many bytes are written. They stay in the buffer.
    pub fn end(self) -> usize
        ensures length { result ≡ self.entry.at }
        ensures bytes { self.exit.0.now ≡ self.entry.buf.now }
    {
        let Text { buf: _, at } = self;
        at
    }
}
