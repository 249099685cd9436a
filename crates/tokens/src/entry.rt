// The entries of the local table, each of six bytes.
ghost use Rattle.std.specs.Prelude.{◌≡◌, ◌+◌, ◌*◌, ◌<◌, ◌≤◌, length};
ghost use Rattle.tokens.specs.Reading.{one, Added, Joins, RoomBehind, Behind};

use crate::answer::{Parsed, Read};
use crate::kind::kind_of;
use derivation::Chain;

// Writes an entry behind the `count` entries that the table has.
pub fn put(table: &mut [u8], count: usize, kind: u8, label: u8, left: usize, right: usize)
    requires { 6 * (count + 1) ≤ length table.old }
    ensures { Added table.old count (one kind label left right) table.new }
{
    tables::put(table, count, kind, label, left, right);
}

// Writes an entry without operands; the text is read up to `next`.
pub fn leaf(table: &mut [u8], count: usize, kind: u8, label: u8, next: usize) -> Parsed
    requires { 6 * (count + 1) ≤ length table.old }
    ensures { (result ≡ Ok (record { at = next; count = count + 1 })) × Added table.old count (one kind label 0 0) table.new }
{
    put(table, count, kind, label, 0, 0);
    Ok(Read {
        at: next,
        count: count + 1,
    })
}

// Writes the entry that joins two links, where there are two: the entries from `from` up to `left` are the one, those up to `right` the
// other. Gives how many entries there are.
pub fn joined(table: &mut [u8], from: usize, left: usize, right: usize, chain: Chain) -> usize
    requires { (left < right) × (from < left → 6 * (right + 1) ≤ length table.old) }
    ensures { Joins chain table.old from left right result table.new }
{
    if from < left {
        let kind = u8::from(kind_of(chain));
        put(table, right, kind, 0, left - 1, right - 1);
        return right + 1;
    }
    right
}

// Writes an entry behind its one operand, where that was read.
pub fn behind(table: &mut [u8], operand: Parsed, kind: u8) -> Parsed
    requires { RoomBehind operand table.old }
    ensures { Behind kind table.old operand result table.new }
{
    let Read { at, count } = operand?;
    put(table, count, kind, 0, count - 1, 0);
    Ok(Read {
        at,
        count: count + 1,
    })
}
