// Steps from the members of a set: along an axis, and to where a label is. A step costs in proportion to the nodes it starts from
// and reaches, not to the roll, and so does a star, which goes on from each node once.

#![tactic(auto)]

mod along;
mod axis;
mod label;
mod reach;
mod star;
mod walk;

pub use along::step;
pub use axis::{Axes, Axis, both, only, turned};
pub use label::labelled;
pub use reach::{first_child, link_at};
pub use star::closure;
