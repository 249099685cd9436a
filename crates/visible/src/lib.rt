// Which nodes of a roll are visible: each record's filter is answered on the whole roll, and one pass in document order looks up each
// node's pair or hands on what its parent has.

#![tactic(auto)]

mod answers;
mod index;
mod shown;

ghost use Rattle.roll.specs.Roll.{Roll};
ghost use Rattle.view.specs.Promise.{Seen, Annotated};
ghost use Rattle.sets.specs.Sets.{Holds};

use answers::answer;
use index::index_of;
use links::{NONE, link};
use shown::shown;

// The visible nodes.
pub fn visible_nodes(roll: &[u8], annotation: &[u8], filters: &[u8]) -> [u64; 64]
    requires { Roll roll.now × Annotated annotation.now filters.now }
    ensures { Holds (Seen roll.now annotation.now filters.now) result }
{
    let mut links = [NONE; 8192];
    link(roll, &mut links);
    let answers = answer(roll, annotation, filters, &links);
    let index = index_of(annotation);
    shown(roll, &index, &answers)
}
