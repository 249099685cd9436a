// Record numbers turned into view positions.
ghost use Rattle.std.specs.Prelude.{◌≤◌};
ghost use Rattle.sets.specs.Sets.{In, Inside, Image};
ghost use Rattle.view.specs.View.{Position};

use sets::{add, empty, has};

// The view positions of the members of a set, in one pass over the n records, which counts those that are shown.
pub(crate) fn positions_of(shown: &[u64; 64], members: &[u64; 64], n: usize) -> [u64; 64]
    requires { (n ≤ 4096) × Inside n shown.now }
    ensures { Image (Position (In shown.now)) members.now result }
{
    let mut positions = empty();
    let mut position: usize = 0;
    for i in 0..n {
        if has(shown, i) {
            if has(members, i) {
                add(&mut positions, position);
            }
            position += 1;
        }
    }
    positions
}
