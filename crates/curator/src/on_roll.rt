// The answer on the roll, through the rewritten query.
ghost use Rattle.roll.specs.Roll.{Roll};
ghost use Rattle.query.specs.Fault.{curators, Query};
ghost use Rattle.view.specs.Promise.{Seen, Annotated};
ghost use Rattle.sets.specs.Sets.{Holds};
ghost use Rattle.curator.specs.Through.{Through};

use answer::reached;
use reply::REWRITTEN_ROOM;
use rewrite::{visible_entry, write_rewritten};

// The records that the rewritten query reaches from record 0: it is written into a local table, and answered on the roll. Who is visible
// is known, and so it is not asked again in every step.
pub(crate) fn reached_through(
    roll: &[u8],
    annotation: &[u8],
    filters: &[u8],
    query: &[u8],
    shown: &[u64; 64],
) -> [u64; 64]
    requires roll { Roll roll.now × (Annotated annotation.now filters.now × Query curators query.now) }
    requires holds { Holds (Seen roll.now annotation.now filters.now) shown.now }
    ensures { Through roll.now annotation.now filters.now query.now result }
{
    let mut table = [0u8; REWRITTEN_ROOM];
    let entries = write_rewritten(annotation, filters, query, &mut table);
    let visible = visible_entry(annotation, filters);
    let size = 6 * entries;
    reached(roll, &table[..size], 0, visible, shown)
}
