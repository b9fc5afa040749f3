// Bytes, flits and cycles; windows.
#![tactic(auto)]

mod units;
mod window;

pub use units::{Bytes, Cycles, Flits, flits_of, occupancy};
pub use window::{Window, overlap};
