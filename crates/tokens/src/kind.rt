// The kinds that are written for a text, and the bytes that stand for them there.
ghost use Rattle.std.specs.Prelude.{◌≡◌};
ghost use Rattle.tables.specs.Kind.{number};
ghost use Rattle.tokens.specs.Reading.{outer_chain, inner_chain, joined_kind, AxisOf};

use derivation::Chain;
use tables::{Kind, Sort};

// The chain that a path or a filter is: a path is a chain of sequences, which are chains of items; a filter is a chain of conjunctions,
// which are chains of terms.
pub fn outer(sort: Sort) -> Chain
    ensures { result ≡ outer_chain sort }
{
    match sort {
        Sort::Path => Chain::Path,
        Sort::Filter => Chain::Filter,
    }
}

// The chain that each link of it is.
pub fn inner(sort: Sort) -> Chain
    ensures { result ≡ inner_chain sort }
{
    match sort {
        Sort::Path => Chain::Sequence,
        Sort::Filter => Chain::Conjunction,
    }
}

// The kind of two links that are joined.
pub fn kind_of(chain: Chain) -> Kind
    ensures { number result ≡ joined_kind chain }
{
    match chain {
        Chain::Path => Kind::Either,
        Chain::Sequence => Kind::Then,
        Chain::Filter => Kind::Or,
        Chain::Conjunction => Kind::And,
    }
}

// The kind of an atom that is one byte, none of any other byte.
pub fn axis(byte: u8) -> Option<Kind>
    ensures { AxisOf byte result }
{
    match byte {
        b'.' => Some(Kind::Itself),
        b'v' => Some(Kind::Child),
        b'^' => Some(Kind::Parent),
        b'>' => Some(Kind::Next),
        b'<' => Some(Kind::Previous),
        _ => None,
    }
}
