// A star along axes: it goes on from each node once, in whatever order they come.
ghost use Rattle.std.specs.Prelude.{ℕ, ◌+◌, ◌*◌, ◌<◌};
ghost use Rattle.roll.specs.Roll.{nodes, Roll};
ghost use Rattle.query.specs.Meaning.{Star};
ghost use Rattle.sets.specs.Sets.{Image};
ghost use Rattle.links.specs.Links.{Siblings};
ghost use Rattle.steps.specs.Star.{Waits, Digits, WordWith, StepFrom, GoneOn};
ghost use Rattle.steps.specs.Walk.{Ready};

use crate::axis::Axes;
use crate::walk::Walk;
use sets::{Ones, empty};

// The digits of word w whose nodes wait: they are in the set and may be gone on from, and that has not been done.
fn waiting(set: &[u64; 64], sources: &[u64; 64], gone: &[u64; 64], w: usize) -> u64
    requires { w < 64 }
    ensures { Digits (Waits set.now sources.now gone.now) w result }
{
    set[w] & sources[w] & !gone[w]
}

// The first word with a node that waits. (Of the closure of a `find` too little is known.)
fn first_waiting(set: &[u64; 64], sources: &[u64; 64], gone: &[u64; 64]) -> Option<usize>
    ensures { WordWith (Waits set.now sources.now gone.now) result }
{
    for w in 0..64 {
        if waiting(set, sources, gone, w) != 0 {
            return Some(w);
        }
    }
    None
}

impl Walk<'_> {
    // Goes on from the nodes of word w that wait, from the lowest up, until there are none.
    fn go_on(&self, sources: &[u64; 64], w: usize, set: &mut [u64; 64], gone: &mut [u64; 64])
        requires roll { Ready self.now }
        requires w_bound { w < 64 }
        ensures gone_on { GoneOn (StepFrom (nodes self.now.roll.now) self.now.axes sources.now) set.old gone.old set.new gone.new }
        ensures by_index { (k : ℕ) → k < 64 → ¬ Waits set.new sources.now gone.new (64 * w + k) }
    {
        while let Some(k) = Ones(waiting(set, sources, gone, w)).next() {
            gone[w] |= 1 << k;
            self.add_along(64 * w + k, set);
        }
    }
}

// What steps along the axes, each from one of the sources, reach from the members of a set, zero or more of them.
pub fn closure(
    roll: &[u8],
    links: &[u16; 8192],
    axes: Axes,
    sources: [u64; 64],
    from: [u64; 64],
) -> [u64; 64]
    requires { Roll roll.now × Siblings (nodes roll.now) links.now }
    ensures { Image (Star (StepFrom (nodes roll.now) axes sources)) from result }
{
    let walk = Walk { roll, links, axes };
    let mut set = from;
    let mut gone = empty();
    while let Some(w) = first_waiting(&set, &sources, &gone) {
        walk.go_on(&sources, w, &mut set, &mut gone);
    }
    set
}
