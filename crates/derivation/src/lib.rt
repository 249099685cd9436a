// How a text is read, as rules, and that it is read as the grammar says. The code is the names of what the rules and the readers share,
// and the bytes of these.

#![tactic(auto)]

ghost use Rattle.std.specs.Prelude.{◌≡◌};
ghost use Rattle.derivation.specs.Parts.{joining, closing_byte};

// What is made of links that a byte joins: paths of sequences, sequences of items, filters of conjunctions, conjunctions of terms.
#[derive(Clone, Copy)]
pub enum Chain {
    Path,
    Sequence,
    Filter,
    Conjunction,
}

impl Chain {
    // The byte that joins the links of a chain.
    pub fn joint(self) -> u8
        ensures { result ≡ joining self }
    {
        match self {
            Chain::Path => b'|',
            Chain::Sequence => b'/',
            Chain::Filter => b'+',
            Chain::Conjunction => b'&',
        }
    }
}

// [ and ] around a filter, ( and ) around a path, { and } around a filter.
#[derive(Clone, Copy)]
pub enum Bracket {
    Square,
    Round,
    Curly,
}

impl Bracket {
    // The byte that closes a bracket.
    pub fn closing(self) -> u8
        ensures { result ≡ closing_byte self }
    {
        match self {
            Bracket::Square => b']',
            Bracket::Round => b')',
            Bracket::Curly => b'}',
        }
    }
}
