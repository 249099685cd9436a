// Call 6: the curator's query is answered through the rewritten query on the roll, and the records that it reaches are turned into view
// positions. No view is cut out on the way.

#![tactic(auto)]

mod on_roll;
mod place;

ghost use Rattle.reply.specs.Reply.{said};
ghost use Rattle.curator.specs.Promise.{CuratorAnswered};

use answer::give;
use checks::ready_for_curator;
use on_roll::reached_through;
use place::positions_of;
use reply::Reply;
use visible::visible_nodes;

// Curator's answer, "from roll, annotation, filter table and query table: the query's answer on the view, a bitmap of view positions; room
// 512 bytes".
pub fn curators_answer(
    roll: &[u8],
    annotation: &[u8],
    filters: &[u8],
    query: &[u8],
    room: &mut [u8],
) -> Reply
    ensures { CuratorAnswered roll.now annotation.now filters.now query.now room.old (said result) room.new }
{
    let n = ready_for_curator(room.len(), roll, annotation, filters, query)?;
    let shown = visible_nodes(roll, annotation, filters);
    let reached = reached_through(roll, annotation, filters, query, &shown);
    let found = positions_of(&shown, &reached, n);
    give(found, room)
}
