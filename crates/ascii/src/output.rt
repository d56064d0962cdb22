// An output that is filled as far as it has room; so a caller needs no bound on what it puts.
ghost use Rattle.std.specs.Prelude.{◌≡◌, [], ◌∷◌};
ghost use Rattle.ascii.specs.Output.{Puts};

// Bytes that are filled from their start, the place of the next one, and whether LF stands between the lines of what is put, or `; `.
#[derive(Drop)]
pub struct Output<'a> {
    pub bytes: &'a mut [u8],
    pub at: usize,
    pub lines: bool,
}

impl<'a> Output<'a> {
    // An output that holds nothing yet.
    pub fn new(bytes: &'a mut [u8], lines: bool) -> Output<'a>
        ensures same_buffer { result.bytes.ghost_name ≡ bytes.entry.ghost_name }
        ensures same_bytes { result.bytes.now ≡ bytes.old }
        ensures at_start { result.at ≡ 0 }
        ensures same_lines { result.lines ≡ lines }
    {
        Output {
            bytes,
            at: 0,
            lines,
        }
    }

    // Puts a byte.
    pub fn put(&mut self, byte: u8)
        ensures { Puts self.old self.new (byte ∷ []) }
    {
        if self.at < self.bytes.len() {
            self.bytes[self.at] = byte;
            self.at += 1;
        }
    }

    // Puts two bytes.
    pub(crate) fn put_both(&mut self, first: u8, second: u8)
        ensures { Puts self.old self.new (first ∷ second ∷ []) }
    {
        if 1 < self.bytes.len().saturating_sub(self.at) {
            self.bytes[self.at] = first;
            self.bytes[self.at + 1] = second;
            self.at += 2;
        } else {
            self.put(first);
        }
    }

    // Puts bytes. They go through an output of its own, whose place the compiler need not store at every byte.
    pub fn put_all(&mut self, bytes: &[u8])
        ensures { Puts self.old self.new bytes.now }
    {
        let mut out = Output::new(&mut *self.bytes, self.lines);
        out.at = self.at;
        for b in bytes {
            out.put(*b);
        }
        self.at = out.at;
    }
}
