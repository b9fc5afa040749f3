// From the bytes of a text to the whole answer.
#![tactic(auto)]

mod numbering;
mod plan;

pub use numbering::Plan;
pub use plan::plan_of;
