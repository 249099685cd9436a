// The answers of the records' filters on the whole roll.
ghost use Rattle.std.specs.Prelude.{◌<◌, length};
ghost use Rattle.roll.specs.Roll.{nodes};
ghost use Rattle.query.specs.Kind.{filter};
ghost use Rattle.query.specs.Meaning.{holds};
ghost use Rattle.query.specs.Table.{entries, filter_at};
ghost use Rattle.sets.specs.Sets.{Holds};
ghost use Rattle.view.specs.Promise.{Annotated};
ghost use Rattle.evaluator.specs.Evaluator.{Grounds, Within};
ghost use Rattle.visible.specs.Answers.{AllAnswered};

use crate::index::first_named;
use checks::{count as records_of, record_at};
use evaluator::narrow;
use roll::count;
use sets::{below, empty};
use tables::count as entries_of;

// All nodes where the filter of entry f holds.
fn nodes_where(roll: &[u8], filters: &[u8], links: &[u16; 8192], f: usize) -> [u64; 64]
    requires { Grounds roll.now filters.now links.now × Within filters.now filter f }
    ensures { Holds (λ i. (i < length (nodes roll.now)) × holds (nodes roll.now) (filter_at (entries filters.now) f) i) result }
{
    let all = below(count(roll));
    narrow(roll, links, filters, &empty(), entries_of(filters), f, all)
}

// Answers the records: each filter that one of them names is asked once, for the first record that names it.
pub(crate) fn answer(
    roll: &[u8],
    annotation: &[u8],
    filters: &[u8],
    links: &[u16; 8192],
) -> [[u64; 64]; 32]
    requires { Grounds roll.now filters.now links.now × Annotated annotation.now filters.now }
    ensures { AllAnswered roll.now annotation.now filters.now result }
{
    let mut answers = [empty(); 32];
    for r in 0..records_of(annotation) {
        if first_named(annotation, r) == r {
            let own = record_at(annotation, r);
            answers[r] = nodes_where(roll, filters, links, own.filter);
        }
    }
    answers
}
