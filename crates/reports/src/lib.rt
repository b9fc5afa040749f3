// The table written, and the answer of a search that was not refused.
#![tactic(auto)]

mod outcome;

pub use outcome::report;
