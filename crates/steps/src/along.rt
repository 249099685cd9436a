// A step along axes goes over the members of a set.
ghost use Rattle.std.specs.Prelude.{◌+◌, ◌*◌, ◌<◌};
ghost use Rattle.roll.specs.Roll.{nodes, Roll};
ghost use Rattle.sets.specs.Sets.{Image};
ghost use Rattle.links.specs.Links.{Siblings};
ghost use Rattle.steps.specs.Axis.{AlongAny};
ghost use Rattle.steps.specs.Added.{Added, LedTo};
ghost use Rattle.steps.specs.Walk.{Ready};

use crate::axis::Axes;
use crate::walk::Walk;
use sets::Ones;

impl Walk<'_> {
    // Adds what a step reaches from the members in one word, the w-th.
    fn add_word(&self, w: usize, word: u64, out: &mut [u64; 64])
        requires roll { Ready self.now }
        requires w_bound { w < 64 }
        ensures { Added (LedTo (λ k. AlongAny (nodes self.now.roll.now) self.now.axes (64 * w + k)) word) out.old out.new }
    {
        for k in Ones(word) {
            self.add_along(64 * w + k, out);
        }
    }
}

// What a step along one of the axes reaches from the members of a set.
pub fn step(roll: &[u8], links: &[u16; 8192], axes: Axes, from: [u64; 64]) -> [u64; 64]
    requires { Roll roll.now × Siblings (nodes roll.now) links.now }
    ensures { Image (AlongAny (nodes roll.now) axes) from result }
{
    let walk = Walk { roll, links, axes };
    let mut out = [0u64; 64];
    for (w, word) in from.iter().enumerate() {
        walk.add_word(w, *word, &mut out);
    }
    out
}
