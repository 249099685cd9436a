// Whether an entry is in order.
ghost use Rattle.std.specs.Prelude.{◌↔◌, T};
ghost use Rattle.query.specs.Table.{entries, LabelField, OperandField, EntryRight};
ghost use Rattle.tables.specs.Shape.{operand};

use crate::entry::{entry_at, has_sort};
use crate::kinds::{Sort, shape_of};
use tree::is_label;

// "label is the given one (1 to 64)", and "unused fields are zero".
fn label_right(used: bool, label: usize) -> bool
    ensures { T result ↔ LabelField used label }
{
    if used { is_label(label) } else { label == 0 }
}

// "Operands are numbers of earlier entries", and "unused fields are zero".
fn operand_right(table: &[u8], i: usize, sort: Option<Sort>, number: usize) -> bool
    ensures { T result ↔ OperandField (entries table.now) i (operand sort) number }
{
    match sort {
        None => number == 0,
        Some(asked) => number < i && has_sort(table, number, asked),
    }
}

// Whether entry i is in order: kind, unused fields, the operands' numbers and sorts, label.
pub fn entry_right(table: &[u8], i: usize) -> bool
    ensures { T result ↔ EntryRight (entries table.now) i }
{
    let entry = entry_at(table, i);
    let shape = shape_of(entry.kind);
    let listed = shape.sort.is_some();
    let label = label_right(shape.label, entry.label);
    if !(listed & label) {
        return false;
    }
    operand_right(table, i, shape.left, entry.left)
        && operand_right(table, i, shape.right, entry.right)
}
