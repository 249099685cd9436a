// Filters that are told at once, so that all nodes can be asked for what a step costs.
ghost use Rattle.std.specs.Prelude.{◌≡◌, ◌↔◌, T};
ghost use Rattle.query.specs.Kind.{path, filter};
ghost use Rattle.query.specs.Table.{entries, path_at};
ghost use Rattle.tables.specs.Promise.{EntriesRight};
ghost use Rattle.evaluator.specs.AtHand.{plain, Told, AtHand};
ghost use Rattle.evaluator.specs.Course.{facing};
ghost use Rattle.evaluator.specs.Evaluator.{Within, Still};

use crate::course::Course;
use crate::entry::{FilterEntry, PathEntry, filter_entry, path_entry};

// Whether a filter asks for a label, or is "true" or "false".
fn is_plain(filter: FilterEntry) -> bool
    ensures { result ≡ plain filter }
{
    matches!(
        filter,
        FilterEntry::Labelled(_) | FilterEntry::Always | FilterEntry::Never
    )
}

// Whether the filter of entry f is told at once: it is the known one or a plain one.
fn is_told(table: &[u8], known: usize, f: usize) -> bool
    requires { EntriesRight table.now × Within table.now filter f }
    ensures { T result ↔ Told table.now known f }
{
    if f == known {
        return true;
    }
    is_plain(filter_entry(table, f))
}

// Whether it is told at once, or says that such a one does not hold.
fn is_at_hand(table: &[u8], known: usize, f: usize) -> bool
    requires { EntriesRight table.now × Within table.now filter f }
    ensures { T result → AtHand table.now known f }
{
    if is_told(table, known, f) {
        return true;
    }
    match filter_entry(table, f) {
        FilterEntry::Not(left) => is_told(table, known, left),
        _ => false,
    }
}

// Whether entry e stays by a filter at hand.
pub(crate) fn stays_at_hand(table: &[u8], known: usize, e: usize) -> bool
    requires { EntriesRight table.now × Within table.now path e }
    ensures { T result → (course : Course) → Still (facing course (path_at (entries table.now) e)) }
{
    match path_entry(table, e) {
        PathEntry::Stay(f) => is_at_hand(table, known, f),
        _ => false,
    }
}
