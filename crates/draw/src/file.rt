// Reading, into buffers that the caller lends.
ghost use Rattle.std.specs.Prelude.{◌+◌, ◌≤◌, length, IfOk, IfSome};
ghost use Rattle.io.specs.Counts.{IsPrefixLen};

use std::fs::File;
use std::io::{Read, Result};
use std::rt::Files;

// One read, behind the `done` bytes that are there: how many bytes it gave. Where these are 0, nothing is left to read.
pub fn read_more<R: Read>(source: &mut R, buffer: &mut [u8], done: usize) -> Result<usize>
    requires { done ≤ length buffer.old }
    ensures { IfOk result (λ n. done + n ≤ length buffer.new) }
{
    source.read(&mut buffer[done..])
}

// The whole file, or as much of it as the buffer holds: how many bytes that are.
fn read_all<R: Read>(source: &mut R, buffer: &mut [u8]) -> Result<usize>
    ensures { IfOk result (λ n. IsPrefixLen n buffer.new) }
{
    let mut done = 0;
    while done < buffer.len() {
        let n = read_more(source, buffer, done)?;
        if n == 0 {
            break;
        }
        done += n;
    }
    Ok(done)
}

// The file of a name: how many bytes of it stand in the buffer, or None where it cannot be opened or read. A name that is
// no text opens no file.
pub fn load<R: Files>(rt: &R, path: &[u8], buffer: &mut [u8]) -> Option<usize>
    ensures { IfSome result (λ n. IsPrefixLen n buffer.new) }
{
    let name = str::from_utf8(path).ok()?;
    let mut file = File::open(rt, name).ok()?;
    read_all(&mut file, buffer).ok()
}
