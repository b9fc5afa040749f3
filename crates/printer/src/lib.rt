// The printer.
#![tactic(auto)]

mod line;
mod printing;
mod text;

pub use line::Line;
pub use printing::{Cursor, LINE, Output, Piece, put_piece};
pub use text::Lines;
