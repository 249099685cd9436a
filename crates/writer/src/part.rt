// A part of the room in which entries are written one behind another.
ghost use Rattle.std.specs.Prelude.{[], ◌∷◌, map, length};
ghost use Rattle.writer.specs.Laid.{Room, Lays, as_entry};

use crate::entry::Entry;

// The bytes that are lent for it, and how many entries it has so far.
#[derive(Drop)]
pub(crate) struct Part<'a> {
    pub(crate) out: &'a mut [u8],
    pub(crate) at: usize,
}

impl<'a> Part<'a> {
    // One entry more.
    pub(crate) fn put(&mut self, own: Entry)
        requires { Room self.old.out.now self.old.at 1 }
        ensures { Lays self.old (as_entry own ∷ []) self.new }
    {
        let kind = u8::from(own.kind);
        tables::put(self.out, self.at, kind, own.label, own.left, own.right);
        self.at += 1;
    }

    // Entries one behind another.
    pub(crate) fn put_all(&mut self, entries: &[Entry])
        requires { Room self.old.out.now self.old.at (length entries.now) }
        ensures { Lays self.old (map as_entry entries.now) self.new }
    {
        for own in entries {
            self.put(*own);
        }
    }
}
