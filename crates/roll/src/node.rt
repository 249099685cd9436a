// Node records, read from the bytes of a table.
ghost use Rattle.std.specs.Prelude.{◌≡◌, length};
ghost use Rattle.tree.specs.Tree.{label_at, parent_at};
ghost use Rattle.roll.specs.Roll.{nodes};

use reply::two_bytes;

// The number of whole records.
pub fn count(roll: &[u8]) -> usize
    ensures { result ≡ length (nodes roll.now) }
{
    roll.len() / 4
}

// The label of record i; where there is no such record it is 0, as the definition has it.
pub fn label_at(roll: &[u8], i: usize) -> usize
    ensures { result ≡ label_at (nodes roll.now) i }
{
    if count(roll) <= i {
        return 0;
    }
    usize::from(roll[4 * i])
}

// The parent field of record i; where there is no such record it is 0, as the definition has it.
pub fn parent_at(roll: &[u8], i: usize) -> usize
    ensures { result ≡ parent_at (nodes roll.now) i }
{
    if count(roll) <= i {
        return 0;
    }
    let at = 4 * i;
    two_bytes(roll[at + 2], roll[at + 3])
}
