// The records of the view.
ghost use Rattle.std.specs.Prelude.{◌+◌, ◌*◌, ◌≤◌, ◌<◌, length};
ghost use Rattle.roll.specs.Roll.{nodes, Roll};
ghost use Rattle.cutting.specs.Scan.{ParentPlace, NodePut};

use reply::{NO_PARENT, put_two_bytes};
use roll::parent_at;

// The parent field of record i in the view: the place of its parent.
pub(crate) fn parent_place(roll: &[u8], places: &[u16; 4096], i: usize) -> usize
    requires { Roll roll.now × (i < length (nodes roll.now)) }
    ensures { ParentPlace (nodes roll.now) places.now i result × (result < 65536) }
{
    if i == 0 {
        return NO_PARENT;
    }
    usize::from(places[parent_at(roll, i)])
}

// Writes a node as record k of the room.
pub(crate) fn put(room: &mut [u8], k: usize, label: u8, parent: usize)
    requires { 4 * (k + 1) ≤ length room.old }
    ensures { NodePut k (record { label = label; parent = parent }) room.old room.new }
{
    let at = 4 * k;
    room[at] = label;
    room[at + 1] = 0;
    put_two_bytes(room, at + 2, parent);
}
