// Call 2: a query text is read into a table of entries. The text is parsed into a local table, and the lent room is written only once
// everything is accepted.

#![tactic(auto)]

mod stars;

ghost use Rattle.std.specs.Prelude.{◌*◌, ◌≤◌, ◌≡◌, length};
ghost use Rattle.reply.specs.Reply.{said};
ghost use Rattle.text.specs.Promise.{TextLength, TextRead};
ghost use Rattle.tokens.specs.Reading.{place_of};
ghost use Rattle.reader.specs.Reader.{Parses, WrittenOut};

use parser::path;
use reply::{CURATOR_ENTRIES, CURATOR_HEIGHT, Reason, Reply, TABLE_ROOM, TEXT_BYTES, refuse};
use stars::slip_before;
use tables::check_query;
use tokens::{Parsed, Stopped};

// Two entries of six bytes for each byte of a text: no text writes more.
const TABLE: usize = 12 * TEXT_BYTES;

// Most texts are short, and a table is cleared for each text: these have one of their own.
const SHORT_BYTES: usize = 128;

const SHORT_TABLE: usize = 12 * SHORT_BYTES;

// The whole text as a path: nothing may stand behind it.
fn read_whole(text: &[u8], table: &mut [u8]) -> Parsed
    requires { TextLength text.now × (12 * length text.now ≤ length table.old) }
    ensures { Parses text.now result table.new }
{
    let read = path(text, 0, 0, table, 0)?;
    if read.at < text.len() {
        return Err(Stopped::Broken(read.at));
    }
    Ok(read)
}

// The table of a text in the grammar, written out if it is within the curator's limits.
fn write_out(table: &[u8], room: &mut [u8]) -> Reply
    requires { 1536 ≤ length room.old }
    ensures { WrittenOut table.now room.old (said result) room.new }
{
    let Ok(count) = check_query(table, CURATOR_ENTRIES, CURATOR_HEIGHT) else {
        return refuse(Reason::TableTooLarge, 0);
    };
    room[..table.len()].copy_from_slice(table);
    Ok(count)
}

// Where reading comes to: the end of the text, or the place where it stops.
fn reached(parsed: Parsed) -> usize
    ensures { result ≡ place_of parsed }
{
    match parsed {
        Ok(read) => read.at,
        Err(Stopped::Broken(at) | Stopped::Deep(at)) => at,
    }
}

// Reads a text of which the length is right by way of a table that has room for it. By the grammar any number of stars may stand in a row;
// the first star right behind a star is refused, where reading comes so far.
fn read_by(text: &[u8], table: &mut [u8], room: &mut [u8]) -> Reply
    requires { TextLength text.now × (12 * length text.now ≤ length table.old) × (1536 ≤ length room.old) }
    ensures { TextRead text.now room.old (said result) room.new }
{
    let parsed = read_whole(text, table);
    let end = reached(parsed);
    if let Some(slip) = slip_before(text, end) {
        return refuse(Reason::TwoStars, slip);
    }
    match parsed {
        Ok(read) => write_out(&table[..6 * read.count], room),
        Err(Stopped::Broken(at)) => refuse(Reason::NotInGrammar, at),
        Err(Stopped::Deep(at)) => refuse(Reason::TooManyOpen, at),
    }
}

// "Read a text into a table; room 1,536 bytes. Gives the number of entries."
pub fn read_text(text: &[u8], room: &mut [u8]) -> Reply
    ensures { TextRead text.now room.old (said result) room.new }
{
    if room.len() < TABLE_ROOM {
        return refuse(Reason::ShortRoom, 0);
    }
    match text.len() {
        1..=SHORT_BYTES => read_by(text, &mut [0u8; SHORT_TABLE], room),
        1..=TEXT_BYTES => read_by(text, &mut [0u8; TABLE], room),
        _ => refuse(Reason::TextLength, 0),
    }
}
