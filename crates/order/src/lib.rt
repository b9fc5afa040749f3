// The order of the list as it starts, by any key or by that of the flows, and a number put in.
#![tactic(auto)]

mod ranking;
mod shift;
mod spread;

pub use ranking::in_order;
pub use shift::put_in;
pub use spread::by_flow;
