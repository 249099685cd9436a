// The members of a set that have a label.
ghost use Rattle.std.specs.Prelude.{◌≡◌};
ghost use Rattle.tree.specs.Tree.{label_at};
ghost use Rattle.roll.specs.Roll.{nodes};
ghost use Rattle.sets.specs.Sets.{Narrowed};

use roll::label_at;
use sets::keep;

pub fn labelled(roll: &[u8], label: usize, from: [u64; 64]) -> [u64; 64]
    ensures { Narrowed (λ k. label_at (nodes roll.now) k ≡ label) from result }
{
    let mut r = from;
    for (w, word) in r.iter_mut().enumerate() {
        *word = keep(*word, |k| label_at(roll, 64 * w + k) == label);
    }
    r
}
