// The check of a query table and of a filter table: one walk over the entries serves both.
ghost use Rattle.std.specs.Prelude.{◌≡◌, ◌↔◌, ◌*◌, ◌^◌, ◌<◌, ◌≤◌, T, length};
ghost use Rattle.reply.specs.Reply.{said};
ghost use Rattle.reply.specs.Bytes.{Whole};
ghost use Rattle.query.specs.Table.{entries as entriesOf};
ghost use Rattle.query.specs.Fault.{Limits};
ghost use Rattle.tables.specs.Promise.{EntriesChecked, QueryChecked, FilterChecked};

use crate::entry::{count, has_sort};
use crate::height::height_below;
use crate::kinds::Sort;
use crate::order::entry_right;
use reply::{ANSWER_ENTRIES, FILTER_ENTRIES, FILTER_HEIGHT, Reason, Reply, refuse};

// "lowest entry, in it 8, 9". The heights of the entries before are kept, in two bytes each, since they are cleared for every table.
fn check_entries(table: &[u8], height: u16) -> Reply
    requires { length (entriesOf table.now) ≤ 1024 }
    ensures { (limit : Limits) → limit.height ≡ height → EntriesChecked limit table.now (said result) }
{
    let n = count(table);
    let mut heights = [0u16; ANSWER_ENTRIES];
    for i in 0..n {
        if !entry_right(table, i) {
            return refuse(Reason::EntryMalformed, i);
        }
        let below = height_below(&heights, table, i);
        if height <= below {
            return refuse(Reason::EntryHeight, i);
        }
        heights[i] = below + 1;
    }
    Ok(n)
}

// Whether the table is whole records of so many bytes each, and at most as many as given.
pub fn whole<const SIZE: usize>(table: &[u8], records: usize) -> bool
    requires size_nonzero { 0 < SIZE }
    requires fits { SIZE * records < 2 ^ 64 }
    ensures { T result ↔ Whole SIZE records table.now }
{
    let length = table.len();
    (length % SIZE == 0) & (length <= SIZE * records)
}

// "12 for length, lowest entry 8, 9, then 12 for the last entry"
pub fn check_query(table: &[u8], entries: usize, height: u16) -> Reply
    requires { entries ≤ 1024 }
    ensures { QueryChecked (record { entries = entries; height = height }) table.now (said result) }
{
    let fits = (0 < table.len()) & whole::<6>(table, entries);
    if !fits {
        return refuse(Reason::QueryTable, 0);
    }
    let n = check_entries(table, height)?;
    let last = n - 1;
    if has_sort(table, last, Sort::Path) {
        return Ok(n);
    }
    refuse(Reason::QueryTable, last)
}

// "7, then lowest entry, in it 8, 9"
pub fn check_filters(table: &[u8]) -> Reply
    ensures { FilterChecked table.now (said result) }
{
    if !whole::<6>(table, FILTER_ENTRIES) {
        return refuse(Reason::FilterLength, 0);
    }
    check_entries(table, FILTER_HEIGHT)
}
