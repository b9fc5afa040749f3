// Placing one packet among those placed.
#![tactic(auto)]

mod start;

pub use start::place;
