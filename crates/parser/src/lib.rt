// The readers of paths and filters, which call each other through brackets. Each goes on, with `depth` brackets open, from what was read:
// it reads on at the place `at`, and writes the entries of what it reads behind the `count` entries of the table.

#![tactic(auto)]

ghost use Rattle.std.specs.Prelude.{◌≡◌, get_or};
ghost use Rattle.derivation.specs.Parts.{opening_byte};
ghost use Rattle.tokens.specs.Reading.{RoomAhead, Follows, paths, filters, items, atoms, terms, brackets};
ghost use Rattle.tokens.specs.Reading.{outer_chain, inner_chain, chains, links};

use derivation::Bracket;
use reply::OPEN_BRACKETS;
use tables::{Kind, Sort};
use tokens::{
    Parsed, Read, Stopped, axis, behind, byte_at, closed, inner, joined, labelled, leaf, outer,
    past_nots, put,
};

// "path: sequences joined by `|`"
#[cycle(read)]
pub fn path(text: &[u8], at: usize, depth: usize, table: &mut [u8], count: usize) -> Parsed
    requires { RoomAhead text.now at table.old count }
    ensures { Follows paths depth text.now at table.old count result table.new }
{
    chained(text, depth, Read { at, count }, table, Sort::Path)
}

// "filter: conjunctions joined by `+`"
#[cycle(read)]
fn filter(text: &[u8], at: usize, depth: usize, table: &mut [u8], count: usize) -> Parsed
    requires { RoomAhead text.now at table.old count }
    ensures { Follows filters depth text.now at table.old count result table.new }
{
    chained(text, depth, Read { at, count }, table, Sort::Filter)
}

// The links of a path or of a filter. Two bytes join them, and the one of the inner chain binds closer; both group to the left. What is
// read of the inner chain begins with the entry `begun`, and the next link is read from `next`.
#[cycle(read)]
fn chained(text: &[u8], depth: usize, from: Read, table: &mut [u8], of: Sort) -> Parsed
    requires { RoomAhead text.now from.at table.old from.count }
    ensures { Follows (chains (outer_chain of)) depth text.now from.at table.old from.count result table.new }
{
    let outer = outer(of);
    let inner = inner(of);
    let mut begun = from.count;
    let mut next = from;
    loop {
        let read = link(text, depth, next, table, of)?;
        next.count = joined(table, begun, next.count, read.count, inner);
        let byte = byte_at(text, read.at);
        if byte == inner.joint() {
            next.at = read.at + 1;
            continue;
        }
        next.count = joined(table, from.count, begun, next.count, outer);
        begun = next.count;
        if byte != outer.joint() {
            return Ok(Read {
                at: read.at,
                count: begun,
            });
        }
        next.at = read.at + 1;
    }
}

// One link of the inner chain: an item of a path, a term of a filter. It is chosen by the sort, which chooses the bytes of the chain too.
#[cycle(read)]
fn link(text: &[u8], depth: usize, from: Read, table: &mut [u8], sort: Sort) -> Parsed
    requires { RoomAhead text.now from.at table.old from.count }
    ensures { Follows (links (inner_chain sort)) depth text.now from.at table.old from.count result table.new }
{
    match sort {
        Sort::Path => item(text, depth, from, table),
        Sort::Filter => term(text, depth, from, table),
    }
}

// "Item: an atom and any number of `*`"
#[cycle(read)]
fn item(text: &[u8], depth: usize, from: Read, table: &mut [u8]) -> Parsed
    requires { RoomAhead text.now from.at table.old from.count }
    ensures { Follows items depth text.now from.at table.old from.count result table.new }
{
    let mut read = atom(text, depth, from, table)?;
    while byte_at(text, read.at) == b'*' {
        put(table, read.count, Kind::Star as u8, 0, read.count - 1, 0);
        read.at += 1;
        read.count += 1;
    }
    Ok(read)
}

// "atom: `.` self, `v` child, `^` parent, `>` next, `<` previous, `[` filter `]`, `(` path `)`"
#[cycle(read)]
fn atom(text: &[u8], depth: usize, from: Read, table: &mut [u8]) -> Parsed
    requires { RoomAhead text.now from.at table.old from.count }
    ensures { Follows atoms depth text.now from.at table.old from.count result table.new }
{
    match byte_at(text, from.at) {
        b'[' => {
            let inner = bracketed(text, depth, from, table, Bracket::Square);
            behind(table, inner, Kind::Stay as u8)
        }
        b'(' => bracketed(text, depth, from, table, Bracket::Round),
        byte => {
            let Some(kind) = axis(byte) else {
                return Err(Stopped::Broken(from.at));
            };
            leaf(table, from.count, u8::from(kind), 0, from.at + 1)
        }
    }
}

// What stands in a bracket that opens here, and the byte that closes it: through here paths and filters call each other.
#[cycle(read)]
fn bracketed(text: &[u8], depth: usize, from: Read, table: &mut [u8], bracket: Bracket) -> Parsed
    requires { RoomAhead text.now from.at table.old from.count × (get_or text.now from.at 0 ≡ opening_byte bracket) }
    ensures { Follows (brackets bracket) depth text.now from.at table.old from.count result table.new }
{
    if depth >= OPEN_BRACKETS {
        return Err(Stopped::Deep(from.at));
    }
    let inner = match bracket {
        Bracket::Round => path(text, from.at + 1, depth + 1, table, from.count),
        Bracket::Square | Bracket::Curly => {
            filter(text, from.at + 1, depth + 1, table, from.count)
        }
    };
    closed(text, inner, bracket.closing())
}

// "Term: `!` term, `t`, `f`, `#` and a label, `{` filter `}`, or a path". The `!` in front are passed, and their entries written last.
#[cycle(read)]
fn term(text: &[u8], depth: usize, from: Read, table: &mut [u8]) -> Parsed
    requires { RoomAhead text.now from.at table.old from.count }
    ensures { Follows terms depth text.now from.at table.old from.count result table.new }
{
    let next = Read {
        at: past_nots(text, from.at),
        ..from
    };
    let mut answer = plain(text, depth, next, table);
    for _ in from.at..next.at {
        answer = behind(table, answer, Kind::Not as u8);
    }
    answer
}

// A term that begins with no `!`.
#[cycle(read)]
fn plain(text: &[u8], depth: usize, from: Read, table: &mut [u8]) -> Parsed
    requires { RoomAhead text.now from.at table.old from.count × (get_or text.now from.at 0 ≡ 33 → ⊥) }
    ensures { Follows terms depth text.now from.at table.old from.count result table.new }
{
    match byte_at(text, from.at) {
        b't' => leaf(table, from.count, Kind::Always as u8, 0, from.at + 1),
        b'f' => leaf(table, from.count, Kind::Never as u8, 0, from.at + 1),
        b'#' => labelled(text, from.at + 1, table, from.count),
        b'{' => bracketed(text, depth, from, table, Bracket::Curly),
        _ => {
            let inner = path(text, from.at, depth, table, from.count);
            behind(table, inner, Kind::Leads as u8)
        }
    }
}
