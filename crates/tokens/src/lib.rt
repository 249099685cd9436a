// What the readers of a text are made of: bytes, labels and brackets that are read, and the entries that are written for them.

#![tactic(auto)]

mod answer;
mod entry;
mod kind;
mod label;

pub use answer::{Parsed, Read, Stopped, closed};
pub use entry::{behind, joined, leaf, put};
pub use kind::{axis, inner, outer};
pub use label::{byte_at, labelled, past_nots};
