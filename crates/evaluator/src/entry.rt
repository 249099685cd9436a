// What an entry stands for: a path or a filter, of operands that are earlier entries.
ghost use Rattle.query.specs.Kind.{path, filter};
ghost use Rattle.tables.specs.Promise.{EntriesRight};
ghost use Rattle.evaluator.specs.Evaluator.{Within};
ghost use Rattle.evaluator.specs.Entry.{ForPath, ForFilter};

use steps::Axis;
use tables::{Kind, entry_at, kind_of};

// A path of the entries named.
#[derive(Clone, Copy)]
pub(crate) enum PathEntry {
    Itself,
    Along(Axis),
    Stay(usize),
    Then(usize, usize),
    Either(usize, usize),
    Star(usize),
}

// A filter of the entries named; the first asks for a label.
#[derive(Clone, Copy)]
pub(crate) enum FilterEntry {
    Labelled(usize),
    Leads(usize),
    Always,
    Never,
    Not(usize),
    And(usize, usize),
    Or(usize, usize),
}

// The path of entry e: of the paths, "self" alone has none of the kinds named.
pub(crate) fn path_entry(table: &[u8], e: usize) -> PathEntry
    requires { EntriesRight table.now × Within table.now path e }
    ensures { ForPath table.now e result }
{
    let entry = entry_at(table, e);
    let kind = kind_of(entry.kind).unwrap();
    match kind {
        Kind::Child => PathEntry::Along(Axis::Child),
        Kind::Parent => PathEntry::Along(Axis::Parent),
        Kind::Next => PathEntry::Along(Axis::Next),
        Kind::Previous => PathEntry::Along(Axis::Previous),
        Kind::Stay => PathEntry::Stay(entry.left),
        Kind::Then => PathEntry::Then(entry.left, entry.right),
        Kind::Either => PathEntry::Either(entry.left, entry.right),
        Kind::Star => PathEntry::Star(entry.left),
        _ => PathEntry::Itself,
    }
}

// The filter of entry e: of the filters, "false" alone has none of the kinds named.
pub(crate) fn filter_entry(table: &[u8], e: usize) -> FilterEntry
    requires { EntriesRight table.now × Within table.now filter e }
    ensures { ForFilter table.now e result }
{
    let entry = entry_at(table, e);
    let kind = kind_of(entry.kind).unwrap();
    match kind {
        Kind::Labelled => FilterEntry::Labelled(entry.label),
        Kind::Leads => FilterEntry::Leads(entry.left),
        Kind::Always => FilterEntry::Always,
        Kind::Not => FilterEntry::Not(entry.left),
        Kind::And => FilterEntry::And(entry.left, entry.right),
        Kind::Or => FilterEntry::Or(entry.left, entry.right),
        _ => FilterEntry::Never,
    }
}
