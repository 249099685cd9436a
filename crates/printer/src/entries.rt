// The text of an entry, which is made of those of its operands. The functions call each other, and the entry number falls.
ghost use Rattle.std.specs.Prelude.{◌∷◌, ◌++◌, ◌+◌, ◌≤◌};
ghost use Rattle.query.specs.Table.{entries};
ghost use Rattle.printer.specs.Printing.{HasEntry, Goes, entry_shown, entry_held};

use crate::ranks::{brackets, rank};
use crate::writing::{TooLong, Writing};
use tables::{Kind, entry_at, kind_of, listed_kind};

// Two operands with a byte between them: the right one is asked for one rank more.
#[cycle(hold_show)]
fn join(
    table: &[u8],
    left: usize,
    right: usize,
    least: usize,
    byte: u8,
    text: &mut Writing,
) -> Result<(), TooLong>
    requires left_entry { HasEntry table.now left }
    requires right_entry { HasEntry table.now right }
    requires least_bound { least ≤ 1 }
    ensures { Goes (entry_held least (entries table.now) left ++ byte ∷ entry_held (least + 1) (entries table.now) right)
        text.old result text.new }
{
    hold(table, left, least, text)?;
    text.put(byte)?;
    hold(table, right, least + 1, text)
}

// The text of entry e with no brackets around it. It is put into `hold` where it is called, since a text is as deep in calls as it is in
// brackets.
#[cycle(hold_show)]
#[inline(always)]
fn show(table: &[u8], e: usize, text: &mut Writing) -> Result<(), TooLong>
    requires { HasEntry table.now e }
    ensures { Goes (entry_shown (entries table.now) e) text.old result text.new }
{
    let entry = entry_at(table, e);
    let left = entry.left;
    let right = entry.right;
    let kind = kind_of(entry.kind).unwrap();
    match kind {
        Kind::Itself => text.put(b'.'),
        Kind::Child => text.put(b'v'),
        Kind::Parent => text.put(b'^'),
        Kind::Next => text.put(b'>'),
        Kind::Previous => text.put(b'<'),
        Kind::Stay => {
            text.put(b'[')?;
            hold(table, left, 0, text)?;
            text.put(b']')
        }
        Kind::Then => join(table, left, right, 1, b'/', text),
        Kind::Either => join(table, left, right, 0, b'|', text),
        Kind::Star => {
            hold(table, left, 3, text)?;
            text.put(b'*')
        }
        Kind::Labelled => {
            text.put(b'#')?;
            text.put_label(entry.label)
        }
        Kind::Leads => hold(table, left, 0, text),
        Kind::Always => text.put(b't'),
        Kind::Never => text.put(b'f'),
        Kind::Not => {
            text.put(b'!')?;
            hold(table, left, 2, text)
        }
        Kind::And => join(table, left, right, 1, b'&', text),
        Kind::Or => join(table, left, right, 0, b'+', text),
    }
}

// The text of entry e where at least a rank is asked for: in brackets if it is joined more loosely. At the byte that no longer fits `?`
// leaves all of them, so that no entry is unfolded for nothing.
#[cycle(hold_show)]
pub(crate) fn hold(table: &[u8], e: usize, least: usize, text: &mut Writing) -> Result<(), TooLong>
    requires { HasEntry table.now e }
    ensures { Goes (entry_held least (entries table.now) e) text.old result text.new }
{
    let kind = listed_kind(table, e).unwrap();
    let loose = rank(kind) < least;
    if !loose {
        return show(table, e, text);
    }
    let (opening, closing) = brackets(kind);
    text.put(opening)?;
    show(table, e, text)?;
    text.put(closing)
}
