// Call 1: a table is checked in one scan over its records.
ghost use Rattle.std.specs.Prelude.{◌≡◌, ◌↔◌, ℕ, ◌<◌, T, length};
ghost use Rattle.reply.specs.Reply.{said};
ghost use Rattle.reply.specs.Outcome.{Lowest, Checked};
ghost use Rattle.tree.specs.Tree.{Label, label_at};
ghost use Rattle.roll.specs.Roll.{nodes, second_byte, ParentRule, NodeRight, NodeFault, RollLength};
ghost use Rattle.roll.specs.Promise.{RollChecked};

use crate::climb::climb;
use crate::node::{count, label_at, parent_at};
use reply::{NO_PARENT, NODES, Reason, Reply, refuse};
use tree::is_label;

// The bytes of as many nodes as a roll may have.
const LONGEST: usize = 4 * NODES;

fn length_fits(roll: &[u8]) -> bool
    ensures { T result ↔ RollLength roll.now }
{
    let n = roll.len();
    n % 4 == 0 && (1..=LONGEST).contains(&n)
}

// The three parts of a record that is right: its label, its second byte, and its parent, which is checked where the
// records before it follow the parent rule.
fn label_fits(roll: &[u8], i: usize) -> bool
    ensures { T result ↔ Label (label_at (nodes roll.now) i) }
{
    is_label(label_at(roll, i))
}

pub fn second_fits(roll: &[u8], i: usize) -> bool
    requires { i < length (nodes roll.now) }
    ensures { T result ↔ (second_byte roll.now i ≡ 0) }
{
    roll[4 * i + 1] == 0
}

fn parent_fits(roll: &[u8], i: usize) -> bool
    requires { (k : ℕ) → k < i → ParentRule (nodes roll.now) k }
    ensures { T result ↔ ParentRule (nodes roll.now) i }
{
    let parent = parent_at(roll, i);
    if i == 0 {
        return parent == NO_PARENT;
    }
    let before = i - 1;
    if before <= parent {
        return parent == before;
    }
    parent_at(roll, climb(roll, before, parent)) == parent
}

// Checks record i, where the records before it are right: 3, then 4, then 5.
fn check_node(roll: &[u8], i: usize) -> Reply
    requires i_in_bounds { i < length (nodes roll.now) }
    requires by_index { (k : ℕ) → k < i → NodeRight roll.now k }
    ensures { let b = roll.now in Checked (NodeRight b i) (Lowest (NodeRight b) (NodeFault b) (length (nodes b))) 1 (said result) }
{
    let label = label_fits(roll, i);
    let second = second_fits(roll, i);
    let parent = parent_fits(roll, i);
    if !label {
        return refuse(Reason::NodeLabel, i);
    }
    if !second {
        return refuse(Reason::SecondByte, i);
    }
    if !parent {
        return refuse(Reason::ParentField, i);
    }
    Ok(1)
}

// Check a roll: its number of nodes, or 2, or the fault of the lowest faulty record.
pub fn check_roll(roll: &[u8]) -> Reply
    ensures { RollChecked roll.now (said result) }
{
    if !length_fits(roll) {
        return refuse(Reason::RollLength, 0);
    }
    let n = count(roll);
    for i in 0..n {
        check_node(roll, i)?;
    }
    Ok(n)
}
