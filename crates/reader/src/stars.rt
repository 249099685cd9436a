// "Two stars in a row are a slip."
ghost use Rattle.std.specs.Prelude.{◌≤◌, length};
ghost use Rattle.reader.specs.Reader.{FirstSlip};

// The first star right behind a star, of those before the place `end`, where there is one.
pub(crate) fn slip_before(text: &[u8], end: usize) -> Option<usize>
    requires { end ≤ length text.now }
    ensures { FirstSlip text.now end result }
{
    for at in 1..end {
        if text[at - 1] == b'*' && text[at] == b'*' {
            return Some(at);
        }
    }
    None
}
