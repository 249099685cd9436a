// What stands before the query's own entries: it depends on the annotation and on the number of filter entries alone.
ghost use Rattle.std.specs.Prelude.{◌≡◌, length};
ghost use Rattle.view.specs.Annotation.{records};
ghost use Rattle.written.specs.Written.{opening, prelude, prelude_size};
ghost use Rattle.tables.specs.Laid.{laid};
ghost use Rattle.writer.specs.Laid.{Room, Lays, LabelBytes, Numbers};

use crate::entry::Entry;
use crate::part::Part;
use tables::Kind;

impl<'a> Part<'a> {
    // The opening: the parent step, and that no record is the node's or shows it.
    fn put_opening(&mut self)
        requires { Room self.old.out.now self.old.at 3 }
        ensures { Lays self.old opening self.new }
    {
        let none = Entry::of(Kind::Never, 0, 0);
        self.put_all(&[Entry::of(Kind::Parent, 0, 0), none, none]);
    }
}

// Writes all that stands before the query; gives the number of entries. `first` is the number of the part's first entry.
pub(crate) fn write_prelude(out: &mut [u8], annotation: &[u8], first: usize) -> usize
    requires room { Room out.old 0 (prelude_size (length (records annotation.now))) }
    requires label_bytes { LabelBytes annotation.now }
    requires numbers { Numbers first (prelude_size (length (records annotation.now))) }
    ensures value { result ≡ prelude_size (length (records annotation.now)) }
    ensures out_after { out.new ≡ laid out.old 0 (prelude first (records annotation.now)) }
{
    let mut part = Part { out, at: 0 };
    part.put_opening();
    part.put_records(annotation, first);
    let at = part.at;
    part.put_rows(first + at - 2);
    part.at
}
