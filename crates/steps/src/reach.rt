// What a step along axes reaches from one node.
ghost use Rattle.std.specs.Prelude.{◌<◌, get_or};
ghost use Rattle.tree.specs.Tree.{Child};
ghost use Rattle.roll.specs.Roll.{nodes, Roll};
ghost use Rattle.links.specs.Links.{LinkIs, NumberIs};
ghost use Rattle.steps.specs.Axis.{AlongAny};
ghost use Rattle.steps.specs.Added.{Added, FirstChild, Leads};
ghost use Rattle.steps.specs.Walk.{Ready};

use crate::walk::Walk;
use links::NONE;
use roll::{count, parent_at};
use sets::add;

// Where a link leads, if it leads anywhere.
pub fn link_at(links: &[u16; 8192], i: usize) -> Option<usize>
    requires { i < 8192 }
    ensures { NumberIs (get_or links.now i 65535) result }
{
    let link = links[i];
    if link == NONE {
        return None;
    }
    Some(usize::from(link))
}

// The first child of i is the record behind i, if i is its parent.
pub fn first_child(roll: &[u8], i: usize) -> Option<usize>
    requires roll { Roll roll.now }
    requires i_bound { i < 4096 }
    ensures { LinkIs (FirstChild (nodes roll.now)) i result }
{
    let first = i + 1;
    if count(roll) <= first {
        return None;
    }
    if parent_at(roll, first) == i {
        return Some(first);
    }
    None
}

impl Walk<'_> {
    // Adds the children of i, from the first one on from sibling to sibling.
    fn add_children(&self, i: usize, out: &mut [u64; 64])
        requires roll { Ready self.now }
        requires i_bound { i < 4096 }
        ensures { Added (Child (nodes self.now.roll.now) i) out.old out.new }
    {
        let mut next = first_child(self.roll, i);
        while let Some(j) = next {
            add(out, j);
            next = link_at(self.links, j);
        }
    }

    // Adds the parent of i.
    fn add_parent(&self, i: usize, out: &mut [u64; 64])
        requires { Ready self.now }
        ensures { Added (λ j. Child (nodes self.now.roll.now) j i) out.old out.new }
    {
        if 0 < i && i < count(self.roll) {
            add(out, parent_at(self.roll, i));
        }
    }

    // Adds where the link leads that stands at a place.
    fn add_linked(&self, place: usize, out: &mut [u64; 64])
        requires roll { Ready self.now }
        requires place_bound { place < 8192 }
        ensures { Added (Leads self.now.links.now place) out.old out.new }
    {
        if let Some(j) = link_at(self.links, place) {
            add(out, j);
        }
    }

    // Adds what a step along one of the axes reaches from i.
    pub(crate) fn add_along(&self, i: usize, out: &mut [u64; 64])
        requires roll { Ready self.now }
        requires i_bound { i < 4096 }
        ensures { Added (AlongAny (nodes self.now.roll.now) self.now.axes i) out.old out.new }
    {
        if self.axes.child {
            self.add_children(i, out);
        }
        if self.axes.parent {
            self.add_parent(i, out);
        }
        if self.axes.next {
            self.add_linked(i, out);
        }
        if self.axes.previous {
            self.add_linked(4096 + i, out);
        }
    }
}
