// The flow lines, with the numbers that are kept of them.
ghost use Rattle.std.specs.Prelude.{◌≡◌, ◌≤◌, ◌<◌, length, drop};
ghost use Rattle.lines.specs.Form.{limit, parts_of};
ghost use Rattle.lines.specs.Steps.{with_line, flow_lines};

use crate::taking::read_line;
use model::PER_FLOW;
use words::FLOW;

// The most flows whose numbers are kept: 65 are enough to be refused.
pub const MOST_KEPT: usize = 65;

// How many numbers they have.
pub const KEPT_NUMBERS: usize = PER_FLOW * MOST_KEPT;

// The flow lines: their numbers, as many as are kept, and their count.
// Kept: no heap, so the numbers stand in an array; the count is of all flow lines, which may be more than it holds.
#[derive(Clone, Copy)]
pub struct Lines {
    pub numbers: [u32; KEPT_NUMBERS],
    pub count: usize,
}

impl Lines {
    // One flow line more, which is counted; its numbers are kept unless the most flows are.
    fn push(&mut self, flow: &[u32; PER_FLOW])
        requires { self.old.count < limit }
        ensures { self.new ≡ with_line self.old flow.now }
    {
        let count = self.count;
        self.count += 1;
        let full = MOST_KEPT <= count;
        if !full {
            let at = PER_FLOW * count;
            self.numbers[at..at + PER_FLOW].copy_from_slice(flow);
        }
    }
}

// The first bad line of a text, counted from 1.
#[derive(Clone, Copy, Debug, PartialEq, Eq)]
pub struct BadLine {
    pub line: u32,
}

// The flow lines from a place on, of which the first is line 3.
pub fn read_flows(text: &[u8], from: usize) -> Result<Lines, BadLine>
    requires { (from ≤ length text.now) × (length text.now ≤ limit) }
    ensures { result ≡ flow_lines (parts_of (drop from text.now)) }
{
    let mut at = from;
    let mut lines = Lines {
        numbers: [0; KEPT_NUMBERS],
        count: 0,
    };
    // Kept: a place moved on by each line's own length, as read_line promises it; no element is counted.
    while at < text.len() {
        let bad = BadLine {
            line: (lines.count + 3) as u32,
        };
        let line = read_line::<PER_FLOW>(text, at, &FLOW).ok_or(bad)?;
        lines.push(&line.numbers);
        at = line.next;
    }
    Ok(lines)
}
