// Bytes of a text, and labels.
ghost use Rattle.std.specs.Prelude.{◌≡◌, ◌≤◌, ◌==◌, length, get_or};
ghost use Rattle.std.specs.List.{prefix_len};
ghost use Rattle.tokens.specs.Label.{DigitOf, LabelAt};
ghost use Rattle.tokens.specs.Reading.{RoomAhead, Follows, labels, Nots};

use crate::answer::{Parsed, Stopped};
use crate::entry::leaf;
use tables::Kind;

// The byte at a place, 0 behind the end: the grammar takes no such byte, so both are refused alike.
pub fn byte_at(text: &[u8], at: usize) -> u8
    ensures { result ≡ get_or text.now at 0 }
{
    text.get(at).copied().unwrap_or(0)
}

// How many `!` the bytes begin with.
fn nots(bytes: &[u8]) -> usize
    ensures { result ≡ prefix_len (λ b. b == 33) bytes.now }
{
    bytes.iter().take_while(|byte| **byte == b'!').count()
}

// The first place from `at` on where no `!` stands.
pub fn past_nots(text: &[u8], at: usize) -> usize
    requires { at ≤ length text.now }
    ensures { Nots text.now at result }
{
    at + nots(&text[at..])
}

// A label and the place behind it.
#[derive(Clone, Copy)]
struct Label {
    value: u8,
    next: usize,
}

// A digit's value, where the byte is one.
fn digit(byte: u8) -> Option<u8>
    ensures { DigitOf byte result }
{
    if byte.is_ascii_digit() {
        Some(byte - b'0')
    } else {
        None
    }
}

// "label: 1 to 64 in decimal, no leading zero": as many digits as make one.
fn read_label(text: &[u8], at: usize) -> Option<Label>
    requires { at ≤ length text.now }
    ensures { LabelAt text.now at result }
{
    let tens = digit(byte_at(text, at))?;
    if tens == 0 {
        return None;
    }
    if let Some(ones) = digit(byte_at(text, at + 1)) {
        let both = 10 * tens + ones;
        if both <= 64 {
            return Some(Label {
                value: both,
                next: at + 2,
            });
        }
    }
    Some(Label {
        value: tens,
        next: at + 1,
    })
}

// The entry of a label that stands at `at`, behind the `count` entries of the table.
pub fn labelled(text: &[u8], at: usize, table: &mut [u8], count: usize) -> Parsed
    requires { RoomAhead text.now at table.old count }
    ensures { Follows labels 0 text.now at table.old count result table.new }
{
    let Some(Label { value, next }) = read_label(text, at) else {
        return Err(Stopped::Broken(at));
    };
    leaf(table, count, Kind::Labelled as u8, value, next)
}
