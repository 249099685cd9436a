// "The height of an entry is 1 without operands, otherwise 1 plus the greatest height of its operands."
ghost use Rattle.std.specs.Prelude.{◌≡◌, ◌+◌};
ghost use Rattle.query.specs.Table.{entries, entry_at, operand_height, height};
ghost use Rattle.tables.specs.Shape.{operand};

use crate::entry::entry_at;
use crate::kinds::{Sort, shape_of};

// The height of an operand among those of the entries before it, 0 where the field is unused.
fn operand_height(heights: &[u16], sort: Option<Sort>, number: usize) -> u16
    ensures { result ≡ operand_height heights.now (operand sort) number }
{
    match sort {
        None => 0,
        Some(_) => heights.get(number).copied().unwrap_or(0),
    }
}

// The greatest height of the operands of entry i, which is one less than its own.
pub fn height_below(heights: &[u16], table: &[u8], i: usize) -> u16
    ensures { result + 1 ≡ height heights.now (entry_at (entries table.now) i) }
{
    let entry = entry_at(table, i);
    let shape = shape_of(entry.kind);
    let left = operand_height(heights, shape.left, entry.left);
    let right = operand_height(heights, shape.right, entry.right);
    left.max(right)
}
