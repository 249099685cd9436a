// "For each kind the list below says which operands it takes": the list as a constant table over kind numbers. It is a `static`, since a
// `const` table is laid out anew at each look-up.
ghost use Rattle.std.specs.Prelude.{◌≡◌};
ghost use Rattle.query.specs.Kind.{row_of};
ghost use Rattle.tables.specs.Kind.{number, Stands};
ghost use Rattle.tables.specs.Shape.{operand, sort_of, Shaped, Listed};

// The kinds of entries, each with its number.
#[derive(Clone, Copy, PartialEq, Eq)]
pub enum Kind {
    Itself = 1,
    Child = 2,
    Parent = 3,
    Next = 4,
    Previous = 5,
    Stay = 6,
    Then = 7,
    Either = 8,
    Star = 9,
    Labelled = 16,
    Leads = 17,
    Always = 18,
    Never = 19,
    Not = 20,
    And = 21,
    Or = 22,
}

impl From<Kind> for u8 {
    ghost from_gives = { λ k n. n ≡ number k };

    fn from(kind: Kind) -> u8 {
        kind as u8
    }
}

// The kind with a number, where the list has it.
pub fn kind_of(number: usize) -> Option<Kind>
    ensures { Stands number result }
{
    match number {
        1 => Some(Kind::Itself),
        2 => Some(Kind::Child),
        3 => Some(Kind::Parent),
        4 => Some(Kind::Next),
        5 => Some(Kind::Previous),
        6 => Some(Kind::Stay),
        7 => Some(Kind::Then),
        8 => Some(Kind::Either),
        9 => Some(Kind::Star),
        16 => Some(Kind::Labelled),
        17 => Some(Kind::Leads),
        18 => Some(Kind::Always),
        19 => Some(Kind::Never),
        20 => Some(Kind::Not),
        21 => Some(Kind::And),
        22 => Some(Kind::Or),
        _ => None,
    }
}

// The sorts of entries.
#[derive(Clone, Copy, PartialEq, Eq)]
pub enum Sort {
    Path,
    Filter,
}

// A kind's sort, the sorts of its left and right operand, and whether it uses its label. A field with no sort is unused, and a number with
// no sort is no kind's.
#[derive(Clone, Copy)]
pub struct Shape {
    pub sort: Option<Sort>,
    pub left: Option<Sort>,
    pub right: Option<Sort>,
    pub label: bool,
}

// The fields of a shape, in this order.
#[derive(Clone, Copy)]
struct Row(Option<Sort>, Option<Sort>, Option<Sort>, bool);

const PATH: Option<Sort> = Some(Sort::Path);

const FILTER: Option<Sort> = Some(Sort::Filter);

const NO_KIND: Row = Row(None, None, None, false);

static KINDS: [Row; 23] = [
    NO_KIND, // 0
    Row(PATH, None, None, false), // 1: self
    Row(PATH, None, None, false), // 2: child
    Row(PATH, None, None, false), // 3: parent
    Row(PATH, None, None, false), // 4: next sibling
    Row(PATH, None, None, false), // 5: previous sibling
    Row(PATH, FILTER, None, false), // 6: stay if the filter holds
    Row(PATH, PATH, PATH, false), // 7: left, then right
    Row(PATH, PATH, PATH, false), // 8: left or right
    Row(PATH, PATH, None, false), // 9: left, zero or more times
    NO_KIND, // 10 to 15
    NO_KIND,
    NO_KIND,
    NO_KIND,
    NO_KIND,
    NO_KIND,
    Row(FILTER, None, None, true), // 16: label is the given one
    Row(FILTER, PATH, None, false), // 17: left leads somewhere
    Row(FILTER, None, None, false), // 18: true
    Row(FILTER, None, None, false), // 19: false
    Row(FILTER, FILTER, None, false), // 20: not
    Row(FILTER, FILTER, FILTER, false), // 21: and
    Row(FILTER, FILTER, FILTER, false), // 22: or
];

// The row of a kind's number.
fn row_of(kind: usize) -> Row
    ensures { Listed (row_of kind) result }
{
    if kind < 23 { KINDS[kind] } else { NO_KIND }
}

pub fn shape_of(kind: usize) -> Shape
    ensures { Shaped (row_of kind) result }
{
    let Row(sort, left, right, label) = row_of(kind);
    Shape {
        sort,
        left,
        right,
        label,
    }
}

pub fn sort_of(kind: usize) -> Option<Sort>
    ensures { operand result ≡ sort_of (row_of kind) }
{
    row_of(kind).0
}
