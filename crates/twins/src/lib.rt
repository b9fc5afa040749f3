// Twins: packets of one release and one path, of which the later goes behind the earlier.
#![tactic(auto)]

mod following;

pub use following::resume;
