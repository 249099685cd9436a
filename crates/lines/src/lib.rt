// The lines of the program: the bytes of an output line.

#![tactic(auto)]

mod line;
mod reply_line;

pub use reply_line::{LONGEST, write_line};
