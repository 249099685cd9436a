// Query tables and filter tables: what stands in an entry, and the check of a whole table.

#![tactic(auto)]

mod check;
mod entry;
mod height;
mod kinds;
mod order;

pub use check::{check_filters, check_query, whole};
pub use entry::{count, entry_at, has_sort, listed_kind, put, sort_at};
pub use kinds::{Kind, Sort, kind_of, shape_of};
