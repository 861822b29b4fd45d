// Words and numbers as text in a lent output, one after another.
ghost use Rattle.std.specs.Prelude.{◌≡◌, ◌++◌};
ghost use Rattle.text.specs.Writer.{Room, after};

use itoa::{Buffer, Integer};

// What was lent, and the place behind what is written.
#[derive(Drop)]
pub(crate) struct Writer<'a> {
    pub(crate) out: &'a mut [u8],
    pub(crate) at: usize,
}

impl<'a> Writer<'a> {
    pub(crate) fn new(out: &'a mut [u8]) -> Writer<'a>
        ensures { (result.out ≡ out.entry) × (result.at ≡ 0) }
    {
        Writer { out, at: 0 }
    }

    pub(crate) fn word(&mut self, word: &[u8])
        requires { Room self.old word.now }
        ensures { self.new ≡ after self.old word.now }
    {
        let end = self.at + word.len();
        self.out[self.at..end].copy_from_slice(word);
        self.at = end;
    }

    // write! can fail for all that it promises, and a call that writes a text can't.
    pub(crate) fn number<I: Integer>(&mut self, n: I)
        requires { Room self.old (I.text n) }
        ensures { self.new ≡ after self.old (I.text n) }
    {
        let mut buffer = Buffer::new();
        self.word(buffer.format(n).as_bytes());
    }

    // A word, and a number behind it.
    #[tactic(auto, using(crate::proofs::Writer::steps))]
    pub(crate) fn field<I: Integer>(&mut self, word: &[u8], n: I)
        requires { Room self.old (word.now ++ I.text n) }
        ensures { self.new ≡ after self.old (word.now ++ I.text n) }
    {
        self.word(word);
        self.number(n);
    }
}
