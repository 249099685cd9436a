// Sets of nodes, by value: 64 words of 64 bits, node k the bit of weight 2^(k mod 64) in word k div 64.

#![tactic(auto)]

mod bitmap;
mod build;
mod merge;
mod ones;
mod test;

pub use bitmap::bytes;
pub use build::{add, below, empty};
pub use merge::{add_front, common, difference, take_front, union};
pub use ones::{Ones, keep};
pub use test::{count, has, is_empty, is_front_empty};
