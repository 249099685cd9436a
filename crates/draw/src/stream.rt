// Standard input to standard output.
ghost use Rattle.std.specs.Prelude.{◌≤◌, ◌<◌, length, drop, IfOk, IfSome};
ghost use Rattle.lines.specs.Line.{longest};
ghost use Rattle.draw.specs.Inner.{Kept, NoLine};

use crate::file::read_more;
use crate::line::Archive;
use lines::{LONGEST, write_line};
use reply::{BITMAP_ROOM, Reason, TEXT_BYTES, refuse};
use std::cmp::min;
use std::io::{Print, Result, Stdin, Stdout};

// What one read gives; and what is written at once: 65,536 bytes and the longest line behind them.
const INPUT: usize = 65536;

const OUTPUT: usize = 65536 + LONGEST;

// A text has at most 1,024 bytes: a line with one byte more is refused, whatever follows.
const TOO_LONG: usize = TEXT_BYTES + 1;

// A file that cannot be opened or read gives a single line.
pub fn unreadable(to: Stdout) {
    let map = [0u8; BITMAP_ROOM];
    let mut out = [0u8; OUTPUT];
    let size = write_line(refuse(Reason::FileUnreadable, 0), &map, &mut out);
    let _ = to.write_all(&out[..size]);
}

// Answers the whole lines of the input and writes the answers out: how far the input is answered, unless a write fails.
fn send_lines(to: Stdout, archive: &Archive, input: &[u8], out: &mut [u8]) -> Result<usize>
    requires { longest ≤ length out.old }
    ensures { IfOk result (λ at. (at ≤ length input.now) × NoLine (drop at input.now)) }
{
    let mut at = 0;
    while at < input.len() {
        let done = archive.answer_lines(&input[at..], out);
        if done.read == 0 {
            break;
        }
        to.write_all(&out[..done.written])?;
        at += done.read;
    }
    Ok(at)
}

// Moves a line that has not ended to the front of the buffer, or, where it is too long already, as much of it as shows that. Gives how many
// bytes that are.
fn keep(buffer: &mut [u8], from: usize, to: usize) -> usize
    requires { (from ≤ to) × (to ≤ length buffer.old) }
    ensures { Kept buffer.old from to result buffer.new }
{
    let kept = min(to - from, TOO_LONG);
    buffer.copy_within(from..from + kept, 0);
    kept
}

// The last line counts without a line feed, if it has bytes.
fn last_line(to: Stdout, archive: &Archive, buffer: &mut [u8], kept: usize, out: &mut [u8])
    requires { (kept < length buffer.old) × (longest ≤ length out.old) }
{
    if kept == 0 {
        return;
    }
    buffer[kept] = b'\n';
    let _ = send_lines(to, archive, &buffer[..kept + 1], out);
}

// One read, behind the bytes that were kept: all that was answered is out before it waits. Gives how many bytes of a line that has not
// ended are kept, or None where nothing is left to do: at the end, or where a read or a write fails.
fn read_on(
    source: &mut Stdin,
    to: Stdout,
    archive: &Archive,
    buffer: &mut [u8],
    kept: usize,
    out: &mut [u8],
) -> Option<usize>
    requires { (kept < length buffer.old) × (longest ≤ length out.old) }
    ensures { IfSome result (λ n. n ≤ 1025) }
{
    let n = read_more(source, buffer, kept).ok()?;
    if n == 0 {
        last_line(to, archive, buffer, kept, out);
        return None;
    }
    let end = kept + n;
    let at = send_lines(to, archive, &buffer[..end], out).ok()?;
    Some(keep(buffer, at, end))
}

// Answers standard input to its end. A proved loop has to end, and nothing says that the input does: so it counts its turns, up to a number
// that no run comes to.
pub fn draw(mut source: Stdin, to: Stdout, archive: &Archive) {
    let mut buffer = [0u8; INPUT];
    let mut out = [0u8; OUTPUT];
    let mut kept = 0;
    for _ in 0..u64::MAX {
        let Some(n) = read_on(&mut source, to, archive, &mut buffer, kept, &mut out) else {
            return;
        };
        kept = n;
    }
}
