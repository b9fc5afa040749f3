// A line taken apart, as the record of a word.
#![tactic(auto)]

mod fields;

pub use fields::{LARGEST, find, read_into, read_record};
