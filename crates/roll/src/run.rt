// Call 7: the run of a record is one part of the table.
ghost use Rattle.std.specs.Prelude.{◌<◌, length};
ghost use Rattle.tree.specs.Tree.{RunEnds};
ghost use Rattle.roll.specs.Roll.{nodes, Roll};
ghost use Rattle.roll.specs.Promise.{RunGiven};

use crate::node::{count, parent_at};
use crate::scan::check_roll;

// Where the run of record k ends: at the first record behind k whose parent comes before k, or behind the last record.
pub fn end_of(roll: &[u8], k: usize) -> usize
    requires roll { Roll roll.now }
    requires k_in_bounds { k < length (nodes roll.now) }
    ensures { RunEnds (nodes roll.now) k result }
{
    let n = count(roll);
    for j in k + 1..n {
        if parent_at(roll, j) < k {
            return j;
        }
    }
    n
}

// Run of a record: the part of the table that holds record k and all its descendants, from k's first byte on. For a bad
// roll, or where there is no such record, it is empty and begins where the table does.
pub fn run_of(roll: &[u8], k: usize) -> &[u8]
    ensures { RunGiven roll.entry k result }
{
    let Ok(n) = check_roll(roll) else {
        return &roll[..0];
    };
    if n <= k {
        return &roll[..0];
    }
    let start = 4 * k;
    let end = start + 4 * (end_of(roll, k) - k);
    &roll[start..end]
}
