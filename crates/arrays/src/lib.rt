// The flows and the packets of one hyper-period of a model that is not refused, as arrays.
#![tactic(auto)]

mod build;

pub use build::{Flows, Model, Packets, model_of};
