// The query's own entries, one for each.
ghost use Rattle.std.specs.Prelude.{◌≡◌, map, length};
ghost use Rattle.query.specs.Table.{entries, entry_at, EntryRight};
ghost use Rattle.written.specs.Written.{view_entry};
ghost use Rattle.tables.specs.Laid.{laid};
ghost use Rattle.tables.specs.Promise.{EntriesRight};
ghost use Rattle.writer.specs.Laid.{Room, Short, SmallOperands, as_entry};

use crate::entry::Entry;
use crate::part::Part;
use crate::rows::row_at;
use tables::{Kind, count, entry_at, kind_of};

// The last row of each axis.
const DOWN: usize = 18;

const UP: usize = 22;

const FORWARDS: usize = 44;

const BACKWARDS: usize = 55;

// Entry i of the query.
fn own_entry(query: &[u8], i: usize) -> Entry
    requires right { EntryRight (entries query.now) i }
    requires short { Short i }
    ensures value { as_entry result ≡ entry_at (entries query.now) i }
    ensures small { SmallOperands result }
{
    let own = entry_at(query, i);
    Entry {
        kind: kind_of(own.kind).unwrap(),
        label: own.label as u8,
        left: own.left,
        right: own.right,
    }
}

// What stands for an entry of the query: of a step along an axis, a copy of the axis's last row, or the entry itself. The rows count from
// `axes`, and the query's entries stand `distance` further on.
fn stand_in(own: Entry, axes: usize, distance: usize) -> Entry
    requires { SmallOperands own × (Short axes × Short distance) }
    ensures { as_entry result ≡ view_entry axes distance (as_entry own) }
{
    match own.kind {
        Kind::Child => row_at(DOWN).raised(axes),
        Kind::Parent => row_at(UP).raised(axes),
        Kind::Next => row_at(FORWARDS).raised(axes),
        Kind::Previous => row_at(BACKWARDS).raised(axes),
        _ => own.raised(distance),
    }
}

// Writes what stands for each entry of the query, from entry `at` of the part on.
pub fn write_query(out: &mut [u8], at: usize, query: &[u8], axes: usize, distance: usize)
    requires room { Room out.old at (length (entries query.now)) }
    requires entries_right { EntriesRight query.now }
    requires short { Short (length (entries query.now)) × (Short axes × Short distance) }
    ensures { out.new ≡ laid out.old at (map (view_entry axes distance) (entries query.now)) }
{
    let mut part = Part { out, at };
    for i in 0..count(query) {
        let own = own_entry(query, i);
        part.put(stand_in(own, axes, distance));
    }
}
