// The line for a reply: `A`, the count and the positions ascending, or `R`, number and place, with single spaces.
ghost use Rattle.std.specs.Prelude.{◌≡◌, [], ◌∷◌, ◌+◌, ◌*◌, ◌≤◌, ◌<◌, eqb, length};
ghost use Rattle.reply.specs.Reply.{said, count, refused};
ghost use Rattle.answer.specs.Bitmap.{bit};
ghost use Rattle.lines.specs.Line.{spaced, positions, LineGiven, longest};
ghost use Rattle.lines.specs.Put.{Wrote, Begun};

use crate::line::Line;
use reply::{Reply, number_of};

// No line is longer.
pub const LONGEST: usize = 20503;

// Whether position k is in the bitmap: what `sets::has` is for words.
fn is_in(map: &[u8; 512], k: usize) -> bool
    requires { k < 4096 }
    ensures { result ≡ eqb (bit map.now k) 1 }
{
    (map[k / 8] >> (k % 8)) % 2 == 1
}

impl<'a> Line<'a> {
    // The positions in the bitmap, from the first to the last.
    fn put_positions(&mut self, map: &[u8; 512])
        requires { self.old.at + 5 * 4096 ≤ length self.old.out.now }
        ensures { Wrote self.old (spaced (positions map.now 4096)) self.new }
    {
        for k in 0..4096 {
            if is_in(map, k) {
                self.put_spaced(k);
            }
        }
    }

    // The letter of a line and its first number.
    fn put_head(&mut self, letter: u8, n: usize)
        requires { self.old.at + 22 ≤ length self.old.out.now }
        ensures { Wrote self.old (letter ∷ spaced (n ∷ [])) self.new × (self.new.at ≤ self.old.at + 22) }
    {
        self.put_byte(letter);
        self.put_number(n);
    }

    // A count, with the positions in its bitmap.
    fn put_answer(&mut self, n: usize, map: &[u8; 512])
        requires { self.old.at + longest ≤ length self.old.out.now }
        ensures { Begun (count n) map.now self.old self.new }
    {
        self.put_head(b'A', n);
        self.put_positions(map);
    }

    // A refusal.
    fn put_refusal(&mut self, number: usize, place: usize)
        requires { self.old.at + longest ≤ length self.old.out.now }
        ensures { Begun (refused number place) [] self.old self.new }
    {
        self.put_head(b'R', number);
        self.put_number(place);
    }

    // A reply, with the bitmap that goes with it.
    fn put_reply(&mut self, reply: Reply, map: &[u8; 512])
        requires { self.old.at + longest ≤ length self.old.out.now }
        ensures { Begun (said reply) map.now self.old self.new }
    {
        match reply {
            Ok(n) => self.put_answer(n, map),
            Err(refusal) => self.put_refusal(number_of(refusal.reason) as usize, refusal.place),
        }
    }
}

// Writes the line for a reply and the bitmap that goes with it in front of `out`. Gives its length.
pub fn write_line(reply: Reply, map: &[u8; 512], out: &mut [u8]) -> usize
    requires { longest ≤ length out.old }
    ensures { LineGiven (said reply) map.now out.old result out.new }
{
    let mut line = Line { out, at: 0 };
    line.put_reply(reply, map);
    line.put_byte(b'\n');
    line.at
}
