// "Annotation record, 6 bytes: parent label, child label, number of a filter entry (two bytes), two zero bytes."
// Its fields stand where those of a query entry do, and are read there; here they have the names that the document gives them.
ghost use Rattle.std.specs.Prelude.{◌≡◌, length};
ghost use Rattle.view.specs.Annotation.{records, record_at};
ghost use Rattle.checks.specs.Fields.{Fields};

use tables::entry_at;

#[derive(Clone, Copy)]
pub struct Record {
    pub parent: usize,
    pub child: usize,
    pub filter: usize,
    pub rest: usize,
}

// How many records an annotation has.
pub fn count(annotation: &[u8]) -> usize
    ensures { result ≡ length (records annotation.now) }
{
    tables::count(annotation)
}

// Record i; where there is none, all its fields are 0.
pub fn record_at(annotation: &[u8], i: usize) -> Record
    ensures { Fields (record_at (records annotation.now) i) result }
{
    let six = entry_at(annotation, i);
    Record {
        parent: six.kind,
        child: six.label,
        filter: six.left,
        rest: six.right,
    }
}
