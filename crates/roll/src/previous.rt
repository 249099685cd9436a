// The previous sibling of a record.
ghost use Rattle.roll.specs.Roll.{nodes, Roll};
ghost use Rattle.roll.specs.Sibling.{PreviousIs};

use crate::climb::climb;
use crate::node::{count, parent_at};

// A first child stands right behind its parent. Any other record stands behind the run of its previous sibling, which
// the climb from the record before it comes to.
pub fn previous_of(roll: &[u8], j: usize) -> Option<usize>
    requires { Roll roll.now }
    ensures { PreviousIs (nodes roll.now) j result }
{
    if j == 0 {
        return None;
    }
    if count(roll) <= j {
        return None;
    }
    let parent = parent_at(roll, j);
    let before = j - 1;
    if parent == before {
        return None;
    }
    Some(climb(roll, before, parent))
}
