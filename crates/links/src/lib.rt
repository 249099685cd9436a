// The links of a roll: the next sibling of every record and, 4,096 places behind it, the previous one. All are worked out once in one scan,
// since the climb gives both.

#![tactic(auto)]

ghost use Rattle.std.specs.Prelude.{◌≡◌, replicate};
ghost use Rattle.roll.specs.Roll.{nodes, Roll};
ghost use Rattle.links.specs.Links.{Siblings};

use roll::{count, previous_of};

// Where there is no sibling. It is a number, since options in the lent array would take twice the memory.
pub const NONE: u16 = 65535;

// Fills in the links, none of which is there at first.
#[tactic(auto, using(roll::proofs::Deciding::roll_most))]
pub fn link(roll: &[u8], links: &mut [u16; 8192])
    requires roll { Roll roll.now }
    requires links_value { links.old ≡ replicate 8192 65535 }
    ensures { Siblings (nodes roll.now) links.new }
{
    for j in 0..count(roll) {
        if let Some(i) = previous_of(roll, j) {
            links[4096 + j] = i as u16;
            links[i] = j as u16;
        }
    }
}
