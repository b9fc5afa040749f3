// The first walk of the check: times out of range.
#![tactic(auto)]

mod outside;

pub use outside::first_outside;
