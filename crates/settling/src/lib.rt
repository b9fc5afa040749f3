// The search's state, and one packet of a pass once its start was sought: it takes a time, or is turned away.
#![tactic(auto)]

mod taking;

pub use taking::{State, Turned, nothing_taken, settle};
