// Answers the calls on standard input, one after the other: checks, searches and texts, as the independent program answers them.
#![tactic(auto)]

mod answers;
mod calls;
mod stream;

use answers::Line;
use calls::answer_call;
use stream::Stream;

// The number of standard output.
// Kept: std's streams stand on one more function of C (`os::c::rattle_errno`), and nothing new is assumed; so do both programs.
const STDOUT: i32 = 1;

// The most calls that are answered.
const CALLS: u32 = 100000;

// Answers calls up to the end of the input, or up to a malformed one, which is said.
fn main() {
    let mut stream = Stream::new();
    let mut line = Line::new();
    for _ in 0..CALLS {
        if stream.ended() {
            return;
        }
        answer_call(&mut stream, &mut line);
        if stream.malformed {
            io::write_all(STDOUT, b"malformed\n");
            return;
        }
    }
}
