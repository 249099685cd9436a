// What a path reaches from a set of nodes, and where a filter holds in one. Of one filter, of number `known`, the nodes where it holds
// may be known beforehand: `held`; where none is, the number is behind the last entry.

#![tactic(auto)]

mod at_hand;
mod course;
mod entry;
mod evaluation;
mod ways;

ghost use Rattle.roll.specs.Roll.{nodes};
ghost use Rattle.query.specs.Kind.{path, filter};
ghost use Rattle.query.specs.Meaning.{reach, holds};
ghost use Rattle.query.specs.Table.{entries, filter_at};
ghost use Rattle.sets.specs.Sets.{Image, Narrowed};
ghost use Rattle.evaluator.specs.Course.{walked};
ghost use Rattle.evaluator.specs.Evaluator.{Knowing, Asked};

pub use course::{Course, Walk};
use evaluation::Evaluation;

// What a walk reaches from a set of nodes.
pub fn image(
    roll: &[u8],
    links: &[u16; 8192],
    table: &[u8],
    held: &[u64; 64],
    walk: Walk,
    from: [u64; 64],
) -> [u64; 64]
    requires { Knowing roll.now table.now links.now walk.known held.now × Asked roll.now table.now path walk.entry from }
    ensures { Image (reach (nodes roll.now) (walked (entries table.now) walk)) from result }
{
    let evaluation = Evaluation {
        roll,
        links,
        table,
        held,
        known: walk.known,
    };
    evaluation.image(walk.entry, walk.course, from)
}

// The nodes of a set where the filter of entry e holds.
pub fn narrow(
    roll: &[u8],
    links: &[u16; 8192],
    table: &[u8],
    held: &[u64; 64],
    known: usize,
    e: usize,
    from: [u64; 64],
) -> [u64; 64]
    requires { Knowing roll.now table.now links.now known held.now × Asked roll.now table.now filter e from }
    ensures { Narrowed (holds (nodes roll.now) (filter_at (entries table.now) e)) from result }
{
    let evaluation = Evaluation {
        roll,
        links,
        table,
        held,
        known,
    };
    evaluation.narrow(e, from)
}
