// An entry that is to be written, and the same with its operands elsewhere.
ghost use Rattle.std.specs.Prelude.{◌≡◌, ◌+◌};
ghost use Rattle.written.specs.Written.{entry, label_entry, moved, raise};
ghost use Rattle.tables.specs.Kind.{number};
ghost use Rattle.tables.specs.Shape.{operand};
ghost use Rattle.writer.specs.Laid.{Short, SmallOperands, as_entry};

use tables::{Kind, Sort, shape_of};

#[derive(Clone, Copy)]
pub(crate) struct Entry {
    pub(crate) kind: Kind,
    pub(crate) label: u8,
    pub(crate) left: usize,
    pub(crate) right: usize,
}

// An operand's number, raised by a distance where the field is used.
fn raised_operand(sort: Option<Sort>, number: usize, distance: usize) -> usize
    requires { Short number × Short distance }
    ensures { result ≡ moved (λ x. x + distance) (operand sort) number }
{
    match sort {
        None => number,
        Some(_) => number + distance,
    }
}

impl Entry {
    // An entry with operands.
    pub(crate) fn of(kind: Kind, left: usize, right: usize) -> Entry
        ensures { as_entry result ≡ entry (number kind) left right }
    {
        Entry {
            kind,
            label: 0,
            left,
            right,
        }
    }

    // "label is the given one"
    pub(crate) fn labelled(label: u8) -> Entry
        ensures { as_entry result ≡ label_entry label }
    {
        Entry {
            kind: Kind::Labelled,
            label,
            left: 0,
            right: 0,
        }
    }

    // The entry whose operands stand a distance further on.
    pub(crate) fn raised(self, distance: usize) -> Entry
        requires { SmallOperands self × Short distance }
        ensures { as_entry result ≡ raise distance (as_entry self) }
    {
        let kind = u8::from(self.kind);
        let shape = shape_of(usize::from(kind));
        Entry {
            left: raised_operand(shape.left, self.left, distance),
            right: raised_operand(shape.right, self.right, distance),
            ..self
        }
    }
}
