// Refusals 2 and 4 to 9 of a model, in order.
#![tactic(auto)]

mod judge;

pub use judge::refusal;
