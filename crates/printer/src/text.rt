// The text of an answer as an iterator over its lines.
ghost use Rattle.std.specs.Prelude.{◌≡◌};
ghost use Rattle.std.specs.Iterator.{YieldsFirstBy, item_count};
ghost use Rattle.printer.specs.ByLine.{line_text, lines_for, lines_left};

use crate::line::Line;
use crate::printing::{Cursor, LINE, Output, put_piece};

impl Line {
    // The bytes of the line, the last its line feed.
    pub fn as_bytes(&self) -> &[u8]
        ensures { result.now ≡ line_text self.now }
    {
        &self.bytes[..self.len]
    }
}

// The lines of an answer's text that are still to come.
#[derive(Drop)]
pub struct Lines<'a> {
    cursor: Cursor,
    output: Output<'a>,
}

impl<'a> Lines<'a> {
    // All lines of an answer's text, one after the other.
    #[tactic(auto, unfolding(crate::specs::ByLine::lines_at))]
    pub fn new(output: Output<'a>) -> Lines<'a>
        ensures { lines_left result ≡ lines_for output.entry }
    {
        let cursor = Cursor::First;
        Lines { cursor, output }
    }
}

impl Iterator for Lines<'_> {
    type Item = Line;

    ghost next_gives = { YieldsFirstBy line_text lines_left };

    ghost remaining = { item_count lines_left };

    fn next(&mut self) -> Option<Line> {
        if self.cursor.is_done() {
            return None;
        }
        let mut bytes = [0u8; LINE];
        let piece = put_piece(self.cursor, self.output, &mut bytes);
        self.cursor = piece.next;
        Some(Line {
            bytes,
            len: piece.len,
        })
    }
}
