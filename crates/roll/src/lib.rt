// Rolls: node tables read, checked, and cut into runs.

#![tactic(auto)]

mod climb;
mod node;
mod previous;
mod run;
mod scan;

pub use node::{count, label_at, parent_at};
pub use previous::previous_of;
pub use run::{end_of, run_of};
pub use scan::{check_roll, second_fits};
