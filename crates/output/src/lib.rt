// Bytes written one after another into a lent output that may be too short: what does not fit is counted and not
// written. The contracts cite `Wrote` of specs/Output.antt, and `Puts`, the same of an `Output`.
#![tactic(auto)]

ghost use Rattle.std.specs.Prelude.{◌≡◌, [], ◌∷◌, ◌+◌, ◌≤◌, ◌<◌, length};
ghost use Rattle.output.specs.Output.{most_text};
ghost use Rattle.output.specs.Puts.{Puts};

// A lent output, and where the text that was put into it ends, past the output's own end where it does not fit.
#[derive(Drop)]
pub struct Output<'a> {
    pub bytes: &'a mut [u8],
    pub end: usize,
}

impl<'a> Output<'a> {
    // An output in which nothing was put.
    pub fn new(bytes: &'a mut [u8]) -> Output<'a>
        ensures same { result.bytes.ghost_name ≡ bytes.entry.ghost_name }
        ensures start { (result.bytes.now ≡ bytes.old) × (result.end ≡ 0) }
    {
        Output { bytes, end: 0 }
    }

    // Puts a byte.
    pub fn put_byte(&mut self, byte: u8)
        requires { self.old.end < most_text }
        ensures { Puts (byte ∷ []) self.old self.new }
    {
        if self.end < self.bytes.len() {
            self.bytes[self.end] = byte;
        }
        self.end += 1;
    }

    // Puts some bytes.
    pub fn put_word(&mut self, word: &[u8])
        requires { self.old.end + length word.now ≤ most_text }
        ensures { Puts word.now self.old self.new }
    {
        let end = self.end + word.len();
        if end <= self.bytes.len() {
            self.bytes[self.end..end].copy_from_slice(word);
            self.end = end;
            return;
        }
        if self.bytes.len() <= self.end {
            self.end = end;
            return;
        }
        for byte in word {
            self.put_byte(*byte);
        }
    }
}
