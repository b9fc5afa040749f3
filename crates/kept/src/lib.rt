// The placed packets of a pass, kept in order of their start.
#![tactic(auto)]

mod finding;

pub use finding::Taken;
