// Nodes and the six kinds of link.
#![tactic(auto)]

mod links;
mod nodes;

pub use links::{ALL_LINKS, Kind, end_of, link_of};
pub use nodes::{Place, distance, far, node_at, place_of};
