// What the search reads of a model: what packets hold.
#![tactic(auto)]

mod entries;
mod traffic;

pub use entries::{FlowEntry, PacketEntry};
pub use traffic::Traffic;
