// Who is visible and the four axes of the view: rows that count their operands from the two entries before them.
ghost use Rattle.std.specs.Prelude.{◌≡◌, map, ◌<◌};
ghost use Rattle.written.specs.Written.{entry, raise, axis_row, axis_rows};
ghost use Rattle.tables.specs.Kind.{number};
ghost use Rattle.writer.specs.Laid.{Room, Short, SmallOperands, Lays, as_entry};

use crate::entry::Entry;
use crate::part::Part;
use tables::Kind;

// A kind and its operands.
#[derive(Clone, Copy)]
struct Row(Kind, u8, u8);

impl Row {
    fn entry(self) -> Entry
        ensures value { as_entry result ≡ entry (number self.0) self.1 self.2 }
        ensures small { SmallOperands result }
    {
        Entry::of(self.0, usize::from(self.1), usize::from(self.2))
    }
}

// 0: some record is the node's; 1: some record shows it.
static ROWS: [Row; 56] = [
    Row(Kind::Parent, 0, 0), // 2: ^
    Row(Kind::Not, 0, 0),
    Row(Kind::Stay, 3, 0),
    Row(Kind::Then, 4, 2),
    Row(Kind::Star, 5, 0),
    Row(Kind::Leads, 2, 0),
    Row(Kind::Not, 7, 0),
    Row(Kind::Or, 8, 1),
    Row(Kind::Stay, 9, 0),
    Row(Kind::Then, 6, 10),
    Row(Kind::Leads, 11, 0), // 12: visible
    Row(Kind::Stay, 12, 0), // 13: V
    Row(Kind::Not, 12, 0),
    Row(Kind::Stay, 14, 0), // 15: H
    Row(Kind::Child, 0, 0), // 16: v
    Row(Kind::Then, 15, 16),
    Row(Kind::Star, 17, 0),
    Row(Kind::Then, 18, 13),
    Row(Kind::Then, 16, 19), // 20: down, v/(H/v)*/V
    Row(Kind::Then, 15, 2),
    Row(Kind::Star, 21, 0),
    Row(Kind::Then, 22, 13),
    Row(Kind::Then, 2, 23), // 24: up, ^/(H/^)*/V
    Row(Kind::Next, 0, 0), // 25: >
    Row(Kind::Leads, 25, 0),
    Row(Kind::Not, 26, 0),
    Row(Kind::Stay, 27, 0), // 28: [!>]
    Row(Kind::Then, 2, 15),
    Row(Kind::Then, 28, 29),
    Row(Kind::Star, 30, 0),
    Row(Kind::Then, 31, 25), // 32: skip, ([!>]/^/H)*/>
    Row(Kind::Previous, 0, 0), // 33: <
    Row(Kind::Leads, 33, 0),
    Row(Kind::Not, 34, 0),
    Row(Kind::Stay, 35, 0), // 36: [!<]
    Row(Kind::Leads, 16, 0),
    Row(Kind::Not, 37, 0),
    Row(Kind::Stay, 38, 0), // 39: [!v]
    Row(Kind::Then, 16, 36),
    Row(Kind::Then, 39, 32),
    Row(Kind::Either, 40, 41),
    Row(Kind::Then, 15, 42), // 43: onwards, H/(v/[!<] | [!v]/skip)
    Row(Kind::Star, 43, 0),
    Row(Kind::Then, 44, 13),
    Row(Kind::Then, 32, 45), // 46: forwards, skip/onwards*/V
    Row(Kind::Then, 16, 28),
    Row(Kind::Then, 15, 47),
    Row(Kind::Star, 48, 0),
    Row(Kind::Then, 33, 49), // 50: back, </(H/v/[!>])*
    Row(Kind::Then, 36, 2),
    Row(Kind::Then, 50, 39),
    Row(Kind::Either, 51, 52),
    Row(Kind::Then, 53, 15),
    Row(Kind::Star, 54, 0),
    Row(Kind::Then, 50, 13),
    Row(Kind::Then, 55, 56), // 57: backwards, (([!<]/^ | back/[!v])/H)*/back/V
];

// Row k.
pub(crate) fn row_at(k: usize) -> Entry
    requires { k < 56 }
    ensures value { as_entry result ≡ axis_row k }
    ensures small { SmallOperands result }
{
    ROWS[k].entry()
}

impl<'a> Part<'a> {
    // All rows; what they count from stands at `distance`.
    pub(crate) fn put_rows(&mut self, distance: usize)
        requires room { Room self.old.out.now self.old.at 56 }
        requires short { Short distance }
        ensures { Lays self.old (map (raise distance) axis_rows) self.new }
    {
        for row in &ROWS {
            self.put(row.entry().raised(distance));
        }
    }
}
