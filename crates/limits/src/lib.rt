// The tests of a model's numbers.
#![tactic(auto)]

mod tests;

pub use tests::{bad_list, bad_mesh, bad_nodes, bad_times, out_of_range, too_long};
