// The checks that come before a call's work: the annotation's, and those of several inputs in turn.

#![tactic(auto)]

mod annotation;
mod check;
mod ready;

pub use annotation::{count, record_at};
pub use check::check_annotation;
pub use ready::{ready_for_curator, ready_to_answer, ready_to_cut, ready_to_rewrite};
