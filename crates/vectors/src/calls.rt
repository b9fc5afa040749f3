// A call of each kind: read, made, and its answer written.
use crate::STDOUT;
use crate::answers::Line;
use crate::stream::Stream;
use audit::check;
use model::Mesh;
use planner::plan_of;
use reader::LIMIT;
use search::search;

// The most numbers of flows of a call.
const NUMBERS: usize = 1024;

// The most places of a table of a call.
const PLACES: usize = 2048;

// The most bytes of a text of a call: enough to pass the limit.
const TEXT: usize = LIMIT + 256;

// The next four numbers as a mesh.
fn next_mesh(stream: &mut Stream) -> Mesh {
    let columns = stream.number();
    let rows = stream.number();
    let r = stream.number();
    let flit = stream.number();
    Mesh {
        columns,
        rows,
        r,
        flit,
    }
}

// A check: the mesh, the numbers of the flows, the table.
fn check_call(stream: &mut Stream, line: &mut Line) {
    let mut numbers = [0u32; NUMBERS];
    let mut table = [0u32; PLACES];
    let mesh = next_mesh(stream);
    let numbers = stream.numbers(&mut numbers);
    let table = stream.numbers(&mut table);
    line.write(check(mesh, numbers, table), table)
}

// A search: the mesh, F and G, the numbers of the flows, the lent table.
fn search_call(stream: &mut Stream, line: &mut Line) {
    let mut numbers = [0u32; NUMBERS];
    let mut table = [0u32; PLACES];
    let mesh = next_mesh(stream);
    let pruning = stream.number();
    let threshold = stream.number();
    let numbers = stream.numbers(&mut numbers);
    let table = stream.numbers(&mut table);
    let answer = search(mesh, pruning, threshold, numbers, table);
    line.write(answer, table)
}

// A text: its length and a line feed, then its bytes.
fn text_call(stream: &mut Stream) {
    let mut text = [0u8; TEXT];
    let mut table = [0u32; 1024];
    let plan = plan_of(stream.text(&mut text), &mut table);
    for line in plan.lines(&table) {
        io::write_all(STDOUT, line.as_bytes());
    }
}

// Answers the call whose kind its first letter tells, the line of its answer put together in a lent buffer; another letter makes it
// malformed.
pub fn answer_call(stream: &mut Stream, line: &mut Line) {
    match stream.byte() {
        b'c' => {
            stream.word(b"heck ");
            check_call(stream, line)
        }
        b's' => {
            stream.word(b"earch ");
            search_call(stream, line)
        }
        b't' => {
            stream.word(b"ext ");
            text_call(stream)
        }
        _ => stream.malformed = true,
    }
}
