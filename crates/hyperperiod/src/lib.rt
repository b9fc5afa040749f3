// The hyper-period.
#![tactic(auto)]

mod hyper;

pub use hyper::{MOST, gcd, hyper_period};
