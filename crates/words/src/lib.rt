// The words of a roll's nodes: the labels of their children, in order.

#![tactic(auto)]

ghost use Rattle.std.specs.Prelude.{◌<◌, length};
ghost use Rattle.tree.specs.Tree.{Next};
ghost use Rattle.roll.specs.Roll.{nodes, Roll};
ghost use Rattle.links.specs.Links.{Linked, next};
ghost use Rattle.rules.specs.Rules.{word as word_of};
ghost use Rattle.words.specs.Words.{Gathered};

use roll::label_at;
use steps::{first_child, link_at};

// Writes the labels of the children of node i, and gives their number: from the first child on from sibling to sibling.
pub fn gather(roll: &[u8], links: &[u16; 8192], i: usize, word: &mut [u8; 4096]) -> usize
    requires roll { Roll roll.now × Linked (Next (nodes roll.now)) (next links.now) }
    requires i_in_bounds { i < length (nodes roll.now) }
    ensures { Gathered (word_of (nodes roll.now) i) word.new result }
{
    let mut n = 0;
    let mut next = first_child(roll, i);
    while let Some(j) = next {
        word[n] = label_at(roll, j) as u8;
        n += 1;
        next = link_at(links, j);
    }
    n
}
