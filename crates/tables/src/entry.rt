// "Query entry, 6 bytes: kind, label, left (two bytes), right (two bytes)."
ghost use Rattle.std.specs.Prelude.{◌≡◌, ◌↔◌, T, [], ◌∷◌, ◌+◌, ◌*◌, ◌<◌, ◌≤◌, length, get_or};
ghost use Rattle.reply.specs.Bytes.{two};
ghost use Rattle.query.specs.Table.{entries, entry_at, row_at, HasSort};
ghost use Rattle.tables.specs.Kind.{Stands};
ghost use Rattle.tables.specs.Shape.{the_sort, operand, sort_of};
ghost use Rattle.tables.specs.Fields.{Fields};
ghost use Rattle.tables.specs.Laid.{laid, fields};

use crate::kinds::{Kind, Sort, kind_of, sort_of};
use reply::{put_two_bytes, two_bytes};

#[derive(Clone, Copy, Default)]
pub struct Entry {
    pub kind: usize,
    pub label: usize,
    pub left: usize,
    pub right: usize,
}

// The two-byte number at a place, low byte first.
fn number_at(table: &[u8], at: usize) -> usize
    requires { at + 1 < length table.now }
    ensures { result ≡ two (get_or table.now at 0) (get_or table.now (at + 1) 0) }
{
    two_bytes(table[at], table[at + 1])
}

// How many entries a table has.
pub fn count(table: &[u8]) -> usize
    ensures { result ≡ length (entries table.now) }
{
    table.len() / 6
}

// Entry i; where there is none, all its fields are 0, as the definition has it.
pub fn entry_at(table: &[u8], i: usize) -> Entry
    ensures { Fields (entry_at (entries table.now) i) result }
{
    if table.len() / 6 <= i {
        return Entry::default();
    }
    let at = 6 * i;
    Entry {
        kind: usize::from(table[at]),
        label: usize::from(table[at + 1]),
        left: number_at(table, at + 2),
        right: number_at(table, at + 4),
    }
}

// The kind of entry i, where the list has it.
pub fn listed_kind(table: &[u8], i: usize) -> Option<Kind>
    ensures { Stands (entry_at (entries table.now) i).kind result }
{
    kind_of(entry_at(table, i).kind)
}

// The sort of entry i, where its kind is listed.
pub fn sort_at(table: &[u8], i: usize) -> Option<Sort>
    ensures { operand result ≡ sort_of (row_at (entries table.now) i) }
{
    sort_of(entry_at(table, i).kind)
}

// Whether entry i is of a sort.
pub fn has_sort(table: &[u8], i: usize, sort: Sort) -> bool
    ensures { T result ↔ HasSort (entries table.now) i (the_sort sort) }
{
    sort_at(table, i) == Some(sort)
}

// Writes entry i.
pub fn put(table: &mut [u8], i: usize, kind: u8, label: u8, left: usize, right: usize)
    requires { 6 * (i + 1) ≤ length table.old }
    ensures { table.new ≡ laid table.old i (fields kind label left right ∷ []) }
{
    let at = 6 * i;
    table[at] = kind;
    table[at + 1] = label;
    put_two_bytes(table, at + 2, left);
    put_two_bytes(table, at + 4, right);
}
