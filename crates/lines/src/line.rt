// A line that is being written: bytes and numbers in decimal, each behind what stands there.
ghost use Rattle.std.specs.Prelude.{◌+◌, ◌≤◌, ◌<◌, [], ◌∷◌, length};
ghost use Rattle.lines.specs.Line.{decimal, spaced};
ghost use Rattle.lines.specs.Put.{Wrote};

// The bytes that are lent for it, and the place behind what it has so far.
#[derive(Drop)]
pub(crate) struct Line<'a> {
    pub(crate) out: &'a mut [u8],
    pub(crate) at: usize,
}

impl<'a> Line<'a> {
    // One byte.
    pub(crate) fn put_byte(&mut self, byte: u8)
        requires { self.old.at < length self.old.out.now }
        ensures { Wrote self.old (byte ∷ []) self.new }
    {
        self.out[self.at] = byte;
        self.at += 1;
    }

    // A number in decimal: the digits before its last one, and the last one.
    fn put_decimal(&mut self, n: usize)
        requires { self.old.at + length (decimal n) ≤ length self.old.out.now }
        ensures { Wrote self.old (decimal n) self.new }
    {
        if 10 <= n {
            self.put_decimal(n / 10);
        }
        self.put_byte(b'0' + (n % 10) as u8);
    }

    // A space and a number.
    pub(crate) fn put_spaced(&mut self, n: usize)
        requires { self.old.at + 1 + length (decimal n) ≤ length self.old.out.now }
        ensures { Wrote self.old (spaced (n ∷ [])) self.new }
    {
        self.put_byte(b' ');
        self.put_decimal(n);
    }

    // A space and a number of any size, which takes at most 21 bytes.
    pub(crate) fn put_number(&mut self, n: usize)
        requires { self.old.at + 21 ≤ length self.old.out.now }
        ensures { Wrote self.old (spaced (n ∷ [])) self.new × (self.new.at ≤ self.old.at + 21) }
    {
        self.put_spaced(n);
    }
}
