// Marks of the links of a path.
#![tactic(auto)]

mod marks;

pub use marks::{Mark, has_mark, stamp};
