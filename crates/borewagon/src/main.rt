// The program: reads a text from standard input, calls the planner, and writes its answer line by line.
#![tactic(auto)]

use planner::plan_of;
use reader::TEXT_BUFFER;

// The numbers of the input and of the output.
// Kept: std's streams stand on one more function of C (`os::c::rattle_errno`), and nothing new is assumed.
const STDIN: i32 = 0;

const STDOUT: i32 = 1;

// Reads the text, has it planned, and writes the lines of the answer; a closed output ends it.
fn main() {
    let mut text = [0u8; TEXT_BUFFER];
    let n = io::read_full(STDIN, &mut text);
    let mut table = [0u32; 1024];
    let plan = plan_of(&text[..n], &mut table);
    for line in plan.lines(&table) {
        if !io::write_all(STDOUT, line.as_bytes()) {
            return;
        }
    }
}
