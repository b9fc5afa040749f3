// Numbers in digits.
#![tactic(auto)]

mod digits;

pub use digits::read_number;
