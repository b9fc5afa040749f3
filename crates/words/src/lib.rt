// The record words, and words and numbers written into a line's buffer.
#![tactic(auto)]

mod words;
mod writing;

pub use words::{END, FEED, FLOW, INJECT, MESH, REFUSE, SEARCH, TAB, TABLE};
pub use writing::{put_byte, put_field, put_number, put_time, put_word};
