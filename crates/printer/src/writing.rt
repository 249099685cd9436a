// A text is written byte by byte, up to where it no longer fits.
ghost use Rattle.std.specs.Prelude.{◌≡◌, ◌≤◌, [], ◌∷◌, take};
ghost use Rattle.reply.specs.Bytes.{Bytes};
ghost use Rattle.shortest.proofs.Shown.{label_shown};
ghost use Rattle.printer.specs.Printing.{Goes};

use reply::TEXT_BYTES;
use std::marker::Model;

// The text so far: it stands at the front of the bytes.
#[derive(Drop)]
pub(crate) struct Writing {
    bytes: [u8; TEXT_BYTES],
    size: usize,
}

// A text does not fit.
#[derive(Clone, Copy)]
pub(crate) struct TooLong;

impl Model for Writing {
    ghost Value = { Bytes };

    ghost view = { λ text. take text.size text.bytes };

    ghost invariant = { λ text. text.size ≤ 1024 };
}

impl Writing {
    pub(crate) fn new() -> Writing
        ensures { result ≡ [] }
    {
        Writing {
            bytes: [0; TEXT_BYTES],
            size: 0,
        }
    }

    // One byte more.
    pub(crate) fn put(&mut self, byte: u8) -> Result<(), TooLong>
        ensures { Goes (byte ∷ []) self.old result self.new }
    {
        if self.size < TEXT_BYTES {
            self.bytes[self.size] = byte;
            self.size += 1;
            return Ok(());
        }
        Err(TooLong)
    }

    // "1 to 64 in decimal, no leading zero"
    pub(crate) fn put_label(&mut self, label: usize) -> Result<(), TooLong>
        requires { label ≤ 64 }
        ensures { Goes (label_shown label) self.old result self.new }
    {
        if label < 10 {
            return self.put(b'0' + label as u8);
        }
        self.put(b'0' + (label / 10) as u8)?;
        self.put(b'0' + (label % 10) as u8)
    }

    pub(crate) fn written(&self) -> &[u8]
        ensures { result.now ≡ self.now }
    {
        &self.bytes[..self.size]
    }
}
