// The model: mesh and flows as lent numbers, its hyper-period and number of packets, and the answer.
#![tactic(auto)]

mod answers;
mod flows;
mod sums;

pub use answers::{Answer, Refusal, refused};
pub use flows::{Flow, Mesh, PER_FLOW, flow_of, flows_in, number_of, occupancy_of};
pub use sums::{hyper_in, packets_in};
