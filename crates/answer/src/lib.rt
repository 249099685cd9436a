// Call 3: a query is answered on a roll, and a set of nodes is given as a bitmap.

#![tactic(auto)]

ghost use Rattle.std.specs.Prelude.{◌≡◌, ◌≤◌, ◌<◌, length};
ghost use Rattle.reply.specs.Reply.{said};
ghost use Rattle.roll.specs.Roll.{nodes, Roll};
ghost use Rattle.query.specs.Meaning.{reach};
ghost use Rattle.query.specs.Table.{entries, query_of};
ghost use Rattle.query.specs.Fault.{answered, Query};
ghost use Rattle.sets.specs.Sets.{In, Holds};
ghost use Rattle.evaluator.specs.Evaluator.{Held};
ghost use Rattle.answer.specs.Promise.{Answered};
ghost use Rattle.answer.specs.Given.{BitmapGiven};

use checks::ready_to_answer;
use evaluator::{Course, Walk, image};
use links::{NONE, link};
use reply::Reply;
use sets::{add, bytes, count, empty};
use tables::count as entries_of;

// The set as a bitmap in front of the room: all 512 bytes, and the count of the ones in them.
pub fn give(set: [u64; 64], room: &mut [u8]) -> Reply
    requires { 512 ≤ length room.old }
    ensures { BitmapGiven (In set) room.old (said result) room.new }
{
    let map = bytes(set);
    room[..map.len()].copy_from_slice(&map);
    Ok(count(set))
}

// What the query reaches from a node, where it is known of one filter, that of entry `known`, at which nodes it holds.
pub fn reached(
    roll: &[u8],
    query: &[u8],
    start: usize,
    known: usize,
    holding: &[u64; 64],
) -> [u64; 64]
    requires roll { Roll roll.now × Query answered query.now }
    requires start_in_bounds { start < length (nodes roll.now) }
    requires held { Held roll.now query.now known holding.now }
    ensures { Holds (reach (nodes roll.now) (query_of (entries query.now)) start) result }
{
    let mut links = [NONE; 8192];
    link(roll, &mut links);
    let mut from = empty();
    add(&mut from, start);
    let last = entries_of(query) - 1;
    let walk = Walk {
        entry: last,
        course: Course::Forwards,
        known,
    };
    image(roll, &links, query, holding, walk, from)
}

// Answer on a roll: "a bitmap of record numbers; room 512 bytes".
pub fn answer_on_roll(roll: &[u8], query: &[u8], room: &mut [u8]) -> Reply
    ensures { Answered roll.now query.now room.old (said result) room.new }
{
    ready_to_answer(room.len(), roll, query)?;
    let none = empty();
    let set = reached(roll, query, 0, entries_of(query), &none);
    give(set, room)
}
