// Call 4: the view is cut out in one scan. Each record passed keeps its place, which is its own view position or, where it is hidden, its
// parent's place, so the nearest visible ancestor of a node is found at its parent, without a climb.

#![tactic(auto)]

mod node;

ghost use Rattle.std.specs.Prelude.{◌+◌, ◌≤◌, ◌<◌, length};
ghost use Rattle.reply.specs.Reply.{said};
ghost use Rattle.roll.specs.Roll.{nodes, Roll};
ghost use Rattle.view.specs.Promise.{ViewCut};
ghost use Rattle.sets.specs.Sets.{In};
ghost use Rattle.cutting.specs.Scan.{CutOut};
ghost use Rattle.cutting.specs.Passing.{Passed, RestKept};

use checks::ready_to_cut;
use node::{parent_place, put};
use reply::Reply;
use roll::{count, label_at};
use sets::has;
use visible::visible_nodes;

// The scan: the place of each record passed, the number of records written, and the room that they stand in.
#[derive(Drop)]
struct Scan<'a> {
    places: [u16; 4096],
    written: usize,
    room: &'a mut [u8],
}

impl<'a> Scan<'a> {
    // Passes record i. A visible one is written behind those that stand in the room.
    fn pass(&mut self, roll: &[u8], seen: &[u64; 64], i: usize)
        requires roll { Roll roll.now × In seen.now 0 × (length roll.now ≤ length self.old.room.now) }
        requires i_in_bounds { i < length (nodes roll.now) }
        requires scanned { Passed (nodes roll.now) (In seen.now) i self.old }
        ensures scanned_2 { Passed (nodes roll.now) (In seen.now) (i + 1) self.new }
        ensures rest { RestKept self.old.room self.new }
    {
        let parent = parent_place(roll, &self.places, i);
        if has(seen, i) {
            put(self.room, self.written, label_at(roll, i) as u8, parent);
            self.places[i] = self.written as u16;
            self.written += 1;
            return;
        }
        self.places[i] = parent as u16;
    }
}

// Writes the view of the nodes seen: its number of nodes.
fn write_view(roll: &[u8], seen: &[u64; 64], room: &mut [u8]) -> usize
    requires { Roll roll.now × In seen.now 0 × (length roll.now ≤ length room.old) }
    ensures { CutOut (nodes roll.now) (In seen.now) room.old result room.new }
{
    let n = count(roll);
    let mut scan = Scan {
        places: [0; 4096],
        written: 0,
        room,
    };
    for i in 0..n {
        scan.pass(roll, seen, i);
    }
    scan.written
}

// "Cut out the view; room as long as the roll. Gives its number of nodes."
pub fn cut_view(roll: &[u8], annotation: &[u8], filters: &[u8], room: &mut [u8]) -> Reply
    ensures { ViewCut roll.now annotation.now filters.now room.old (said result) room.new }
{
    ready_to_cut(room.len(), roll, annotation, filters)?;
    let seen = visible_nodes(roll, annotation, filters);
    Ok(write_view(roll, &seen, room))
}
