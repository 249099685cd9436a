// Lines of the input and the lines that answer them: what the program does besides moving bytes.
ghost use Rattle.std.specs.Prelude.{◌≤◌, length};
ghost use Rattle.lines.specs.Line.{longest};
ghost use Rattle.draw.specs.Drawn.{LineFor};
ghost use Rattle.draw.specs.Inner.{LineWritten, LinesAnswered};

use curator::curators_answer;
use lines::{LONGEST, write_line};
use memchr::memchr;
use reader::read_text;
use reply::{BITMAP_ROOM, TABLE_ROOM};

// What the three files hold.
#[derive(Clone, Copy)]
pub struct Archive<'a> {
    pub roll: &'a [u8],
    pub view: &'a [u8],
    pub filters: &'a [u8],
}

// How far the input is answered, and how many bytes were written for it.
#[derive(Clone, Copy)]
pub struct Progress {
    pub read: usize,
    pub written: usize,
}

impl<'a> Archive<'a> {
    // The line for one query text, in front of `out`. Gives its length.
    fn answer_line(&self, text: &[u8], out: &mut [u8]) -> usize
        requires { longest ≤ length out.old }
        ensures { LineWritten
            (LineFor self.now.roll.now self.now.view.now self.now.filters.now text.now)
            out.old result out.new }
    {
        let mut table = [0u8; TABLE_ROOM];
        let mut map = [0u8; BITMAP_ROOM];
        let read = read_text(text, &mut table);
        let Ok(n) = read else {
            return write_line(read, &map, out);
        };
        let size = 6 * n;
        let reply = curators_answer(self.roll, self.view, self.filters, &table[..size], &mut map);
        write_line(reply, &map, out)
    }

    // Answers the whole lines in front of the input, one after the other, while there is room for any line.
    pub fn answer_lines(&self, input: &[u8], out: &mut [u8]) -> Progress
        ensures { LinesAnswered
            (LineFor self.now.roll.now self.now.view.now self.now.filters.now)
            input.now result.read result.written out.new }
    {
        let mut read = 0;
        let mut written = 0;
        while LONGEST <= out.len() - written {
            let Some(n) = memchr(b'\n', &input[read..]) else {
                break;
            };
            let end = read + n;
            written += self.answer_line(&input[read..end], &mut out[written..]);
            read = end + 1;
        }
        Progress { read, written }
    }
}
