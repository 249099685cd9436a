// One pass in document order: a node is shown by the answer of its pair's record, or as its parent is.
ghost use Rattle.std.specs.Prelude.{◌↔◌, ◌<◌, T, length};
ghost use Rattle.roll.specs.Roll.{nodes, Roll};
ghost use Rattle.sets.specs.Sets.{In, Holds};
ghost use Rattle.visible.specs.Shown.{Shown, ShownTo, RowsFit};

use crate::index::row_of;
use roll::{count, label_at, parent_at};
use sets::{add, empty, has};

// Whether node i is in a set of nodes: of a set among others the check does not see that it has 64 words.
fn is_in(set: &[u64; 64], i: usize) -> bool
    requires { i < 4096 }
    ensures { T result ↔ In set.now i }
{
    has(set, i)
}

// Whether node i is shown, where the set holds those shown before it.
fn is_shown(
    roll: &[u8],
    index: &[Option<u8>; 4225],
    answers: &[[u64; 64]; 32],
    before: &[u64; 64],
    i: usize,
) -> bool
    requires roll { Roll roll.now × RowsFit index.now }
    requires i_in_bounds { i < length (nodes roll.now) }
    requires shown_to { ShownTo (nodes roll.now) index.now answers.now i before.now }
    ensures { T result ↔ Shown (nodes roll.now) index.now answers.now i }
{
    if i == 0 {
        return true;
    }
    let parent = parent_at(roll, i);
    let as_parent = is_in(before, parent);
    match row_of(index, label_at(roll, parent), label_at(roll, i)) {
        Some(r) => is_in(&answers[r], i),
        None => as_parent,
    }
}

// The nodes that are shown.
pub(crate) fn shown(roll: &[u8], index: &[Option<u8>; 4225], answers: &[[u64; 64]; 32]) -> [u64; 64]
    requires { Roll roll.now × RowsFit index.now }
    ensures { Holds (Shown (nodes roll.now) index.now answers.now) result }
{
    let mut set = empty();
    for i in 0..count(roll) {
        if is_shown(roll, index, answers, &set, i) {
            add(&mut set, i);
        }
    }
    set
}
