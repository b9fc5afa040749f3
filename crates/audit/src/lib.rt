// The check of a table.
#![tactic(auto)]

mod verdict;

pub use verdict::check;
