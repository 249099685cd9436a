// The climb from a record towards the root.
ghost use Rattle.std.specs.Prelude.{ℕ, ◌≤◌, ◌<◌};
ghost use Rattle.tree.specs.Tree.{parent_at, Above};
ghost use Rattle.roll.specs.Roll.{nodes, ParentRule};

use crate::node::parent_at;

// The last record behind `wanted` on the way from `start` upwards by parents, where the records up to `start` follow
// the parent rule. A scan that climbs from each record towards the parent of the next one passes no record twice,
// since none that it passes is above a later record.
pub(crate) fn climb(roll: &[u8], start: usize, wanted: usize) -> usize
    requires by_index { (k : ℕ) → k ≤ start → ParentRule (nodes roll.now) k }
    requires wanted_lt_start { wanted < start }
    ensures { let t = nodes roll.now in Above t result start × (wanted < result) × (parent_at t result ≤ wanted) }
{
    let mut at = start;
    let mut parent = parent_at(roll, at);
    while wanted < parent {
        at = parent;
        parent = parent_at(roll, at);
    }
    at
}
