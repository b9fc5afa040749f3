// The text reader.
#![tactic(auto)]

mod reading;

pub use reading::{Input, LIMIT, Malformed, TEXT_BUFFER, read};
