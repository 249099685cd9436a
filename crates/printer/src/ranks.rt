// How tightly each kind is joined, and the brackets around what is joined too loosely.
ghost use Rattle.std.specs.Prelude.{◌≡◌, get_or};
ghost use Rattle.tables.specs.Kind.{number};
ghost use Rattle.printer.specs.Printing.{ranks, opening_for, closing_for};

use tables::Kind;

// How tightly what a kind makes is joined: the ranks of paths are 0 to 3, those of filters 0 to 2.
pub(crate) fn rank(kind: Kind) -> usize
    ensures { result ≡ get_or ranks (number kind) 0 }
{
    match kind {
        Kind::Either | Kind::Or => 0,
        Kind::Then | Kind::And => 1,
        Kind::Star | Kind::Labelled | Kind::Leads | Kind::Always | Kind::Never | Kind::Not => 2,
        _ => 3,
    }
}

// The brackets around what a kind makes: { and } around a filter, ( and ) around a path.
pub(crate) fn brackets(kind: Kind) -> (u8, u8)
    ensures { result ≡ (opening_for (number kind), closing_for (number kind)) }
{
    match kind {
        Kind::Labelled
        | Kind::Leads
        | Kind::Always
        | Kind::Never
        | Kind::Not
        | Kind::And
        | Kind::Or => (b'{', b'}'),
        _ => (b'(', b')'),
    }
}
