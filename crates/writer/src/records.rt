// The entries for the annotation's records.
ghost use Rattle.std.specs.Prelude.{◌≡◌, map, ◌+◌, ◌*◌, ◌≤◌, ◌<◌, length};
ghost use Rattle.view.specs.Annotation.{records};
ghost use Rattle.written.specs.Written.{nine_entries, records_entries};
ghost use Rattle.writer.specs.Laid.{Room, Lays, LabelBytes, Numbers, as_entry};

use crate::entry::Entry;
use crate::part::Part;
use checks::{count, record_at};
use tables::Kind;

// The nine entries of a record, the first with the number `b`: its pair of labels, the pair with the filter, and either with what the
// records before it say. The parent step has the number `up`.
fn nine(up: usize, b: usize, parent: u8, child: u8, filter: usize) -> [Entry; 9]
    requires { (2 ≤ b) × (b < 131072) }
    ensures { map as_entry result ≡ nine_entries up b parent child filter }
{
    let pair = b + 5;
    [
        Entry::labelled(child),
        Entry::labelled(parent),
        Entry::of(Kind::Stay, b + 1, 0),
        Entry::of(Kind::Then, up, b + 2),
        Entry::of(Kind::Leads, b + 3, 0),
        Entry::of(Kind::And, b, b + 4),
        Entry::of(Kind::And, pair, filter),
        Entry::of(Kind::Or, pair, b - 2),
        Entry::of(Kind::Or, b + 6, b - 1),
    ]
}

impl<'a> Part<'a> {
    // The entries of all records behind the opening, the last record first. The part's first entry is the parent step, and has the number
    // `first`.
    pub(crate) fn put_records(&mut self, annotation: &[u8], first: usize)
        requires opened { self.old.at ≡ 3 }
        requires room { Room self.old.out.now 3 (9 * length (records annotation.now)) }
        requires label_bytes { LabelBytes annotation.now }
        requires numbers { Numbers first (3 + 9 * length (records annotation.now)) }
        ensures value { self.new.at ≡ 3 + 9 * length (records annotation.now) }
        ensures lays { Lays self.old (records_entries first (records annotation.now)) self.new }
    {
        for i in (0..count(annotation)).rev() {
            let own = record_at(annotation, i);
            let b = first + self.at;
            let all = nine(first, b, own.parent as u8, own.child as u8, own.filter);
            self.put_all(&all);
        }
    }
}
