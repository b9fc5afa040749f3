// The route between two nodes, and whether two paths share a link.
#![tactic(auto)]

mod paths;
mod sharing;

pub use paths::{Path, route};
pub use sharing::share;
