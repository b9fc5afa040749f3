// The first gap for a packet among those placed.
#![tactic(auto)]

mod gap;

pub use gap::{Gap, Placed, Sought, gap_for, time_past};
