// The writer of rewritten entries: it writes what stands behind the filter table's entries, into the part of the room that begins there.

#![tactic(auto)]

mod entry;
// public for a wrong build of call 5 that writes the filter table by it: crate rewrite, must-fail edit annotation_rewritten
pub mod moved;
mod part;
mod prelude;
mod records;
mod rows;

ghost use Rattle.std.specs.Prelude.{◌≡◌, ◌+◌, length};
ghost use Rattle.query.specs.Table.{entries};
ghost use Rattle.view.specs.Annotation.{records};
ghost use Rattle.written.specs.Written.{prelude_size, written};
ghost use Rattle.tables.specs.Laid.{laid};
ghost use Rattle.tables.specs.Promise.{EntriesRight};
ghost use Rattle.writer.specs.Laid.{Room, LabelBytes, Numbers};

use moved::write_query;
use prelude::write_prelude;
use tables::count;

// How far before the query's entries the two stand that the rows count from.
const ROWS_BEHIND: usize = 58;

// Writes all that stands behind the filter table; gives the number of entries. `first` is the number of the part's first entry.
pub fn write_behind(out: &mut [u8], annotation: &[u8], query: &[u8], first: usize) -> usize
    requires room { Room out.old 0 (prelude_size (length (records annotation.now)) + length (entries query.now)) }
    requires label_bytes { LabelBytes annotation.now }
    requires entries_right { EntriesRight query.now }
    requires numbers { Numbers first (prelude_size (length (records annotation.now)) + length (entries query.now)) }
    ensures value { result ≡ length (written first (records annotation.now) (entries query.now)) }
    ensures out_after { out.new ≡ laid out.old 0 (written first (records annotation.now) (entries query.now)) }
{
    let at = write_prelude(out, annotation, first);
    let distance = first + at;
    write_query(out, at, query, distance - ROWS_BEHIND, distance);
    at + count(query)
}
