// A pass over the list, and the passes, until one runs to the end of its list.
#![tactic(auto)]

mod repeat;
mod walk;

pub use repeat::{Outcome, rounds};
pub use walk::Settings;
