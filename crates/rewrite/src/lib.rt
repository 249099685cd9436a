// Call 5: a curator's query is rewritten to one that does on the roll what hers does on the view. The lent room is written only once every
// check has passed.

#![tactic(auto)]

ghost use Rattle.std.specs.Prelude.{◌≡◌, ◌*◌, ◌≤◌, length, take};
ghost use Rattle.reply.specs.Reply.{said};
ghost use Rattle.query.specs.Fault.{curators, Query};
ghost use Rattle.view.specs.Promise.{Annotated};
ghost use Rattle.rewrite.specs.Promise.{Rewritten, RewriteGiven};
ghost use Rattle.rewrite.specs.Visible.{visible_entry, VisibleTold};

use checks::{count as records_of, ready_to_rewrite};
use reply::Reply;
use tables::count;
use writer::write_behind;

// "The rewritten table begins with the filter table's entries, unchanged. What follows is written behind them." Gives the number of
// entries.
pub fn write_rewritten(annotation: &[u8], filters: &[u8], query: &[u8], room: &mut [u8]) -> usize
    requires annotated { Annotated annotation.now filters.now × Query curators query.now }
    requires in_bounds { 6144 ≤ length room.old }
    ensures rewritten { Rewritten annotation.now filters.now query.now room.old result room.new }
    ensures visible_told { VisibleTold annotation.now filters.now (take (6 * result) room.new) }
{
    let size = filters.len();
    room[..size].copy_from_slice(filters);
    let first = count(filters);
    let behind = write_behind(&mut room[size..], annotation, query, first);
    first + behind
}

// The entry of the rewritten table that tells who is visible.
#[tactic(auto, using(query::proofs::Tables::entries_length, checks::proofs::Records::records_length))]
pub fn visible_entry(annotation: &[u8], filters: &[u8]) -> usize
    requires { Annotated annotation.now filters.now }
    ensures { result ≡ visible_entry annotation.now filters.now }
{
    count(filters) + 9 * records_of(annotation) + 13
}

// "Rewrite; room 6,144 bytes. Takes annotation, filter table and curator's query."
pub fn rewrite(annotation: &[u8], filters: &[u8], query: &[u8], room: &mut [u8]) -> Reply
    ensures { RewriteGiven annotation.now filters.now query.now room.old (said result) room.new }
{
    ready_to_rewrite(room.len(), annotation, filters, query)?;
    Ok(write_rewritten(annotation, filters, query, room))
}
