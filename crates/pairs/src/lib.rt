// The second walk of the check: pairs that collide.
#![tactic(auto)]

mod scan;

pub use scan::{Pair, first_meeting};
