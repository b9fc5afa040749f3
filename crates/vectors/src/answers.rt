// An answer written in one line: its eight fields, the length of the lent table and its places, parted by blanks.
ghost use Rattle.std.specs.Prelude.{◌≤◌};

use crate::STDOUT;
use crate::stream::NUMBER;
use model::Answer;
use words::{FEED, put_byte, put_number};

// A buffer of so many bytes has room for the line of any answer with a table of 2,048 places.
const LINE: usize = 32768;

// A line that is put together: the first len bytes of a buffer, which is made once for all answers.
// Kept: digits by `put_number`, as the printer writes them; by `write!` a line of 1,024 places took half as long again.
#[derive(Drop)]
pub struct Line {
    bytes: [u8; LINE],
    len: usize,
    ghost fits: { len ≤ 32768 },
}

impl Line {
    // A line of no bytes.
    pub fn new() -> Line {
        Line {
            bytes: [0; LINE],
            len: 0,
        }
    }

    // A number and a blank behind it, where there is room for both.
    fn put(&mut self, n: u64) {
        if self.len <= LINE - NUMBER {
            let next = put_number(&mut self.bytes, self.len, n);
            self.len = put_byte(&mut self.bytes, next, b' ');
        }
    }

    // Writes the line of an answer and a table at once: the eight fields in the order of document 01, then the list, its length first.
    pub fn write(&mut self, answer: Answer, table: &[u32]) {
        self.len = 0;
        let numbers = [
            u64::from(answer.number),
            u64::from(answer.place),
            u64::from(answer.other),
            u64::from(answer.hyper),
            u64::from(answer.packets),
            u64::from(answer.passes),
            answer.tries,
            u64::from(answer.skipped),
            table.len() as u64,
        ];
        for n in numbers {
            self.put(n);
        }
        for time in table {
            self.put(u64::from(*time));
        }
        if let Some(last) = self.len.checked_sub(1) {
            self.bytes[last] = FEED;
            io::write_all(STDOUT, &self.bytes[..self.len]);
        }
    }
}
