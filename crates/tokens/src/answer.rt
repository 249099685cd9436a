// What a reader answers.
ghost use Rattle.std.specs.Prelude.{◌≤◌, length};
ghost use Rattle.tokens.specs.Reading.{place_of, Closed};

use crate::label::byte_at;

// What was read: the text up to the place `at`, for which the table has `count` entries.
#[derive(Clone, Copy)]
pub struct Read {
    pub at: usize,
    pub count: usize,
}

// The place of a byte that the grammar does not take, or of a bracket that is one too many.
#[derive(Clone, Copy)]
pub enum Stopped {
    Broken(usize),
    Deep(usize),
}

// What reading comes to.
pub type Parsed = Result<Read, Stopped>;

// What was read, with the byte that has to stand behind it.
pub fn closed(text: &[u8], inner: Parsed, close: u8) -> Parsed
    requires { place_of inner ≤ length text.now }
    ensures { Closed text.now close inner result }
{
    let Read { at, count } = inner?;
    if byte_at(text, at) == close {
        return Ok(Read { at: at + 1, count });
    }
    Err(Stopped::Broken(at))
}
