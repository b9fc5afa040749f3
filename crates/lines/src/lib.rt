// The lines of a text: a line taken from its place, and the flow lines.
#![tactic(auto)]

mod flows;
mod taking;

pub use flows::{BadLine, KEPT_NUMBERS, Lines, MOST_KEPT, read_flows};
pub use taking::{Line, read_line, read_line_into};
