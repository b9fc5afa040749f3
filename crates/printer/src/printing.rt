// The printer: the output text, one line at a time.
ghost use Rattle.std.specs.Prelude.{◌≡◌, ◌+◌, ◌≤◌, length};
ghost use Rattle.words.specs.Writer.{Put};
ghost use Rattle.printer.specs.Printer.{prints_table, is_done, field_text, line_of, longest, PrintedOf};
ghost use Rattle.printer.specs.declared.printing.Cursor.TheVariants.{First, Packet};

use model::Answer;
use words::{END, FEED, INJECT, REFUSE, TABLE, put_byte, put_field, put_time, put_word};

// A buffer of so many bytes has room for any line.
pub const LINE: usize = 96;

// Where the printer stands: before the first line, before a packet's line (or the end line, behind the last packet), or behind all.
#[derive(Clone, Copy)]
pub enum Cursor {
    First,
    Packet(u32),
    Done,
}

impl Cursor {
    // Whether nothing is left at the cursor.
    #[tactic(auto, unfolding(crate::specs::Printer::is_done))]
    pub fn is_done(self) -> bool
        ensures { result ≡ is_done self }
    {
        matches!(self, Cursor::Done)
    }
}

// What is printed: an answer, its table, and the flow and k of each packet.
#[derive(Clone, Copy)]
pub struct Output<'a> {
    pub answer: Answer,
    pub table: &'a [u32],
    pub flows: &'a [u16],
    pub turns: &'a [u16],
}

// What was printed: the length of the line in the buffer, and the cursor behind it.
#[derive(Clone, Copy)]
pub struct Piece {
    pub len: usize,
    pub next: Cursor,
}

// Whether a number prints the table.
// Kept: a number, since an answer holds document 01's number, and `passed_is_each_replay` and `complete_search` speak of it.
#[tactic(auto, unfolding(crate::specs::Printer::prints_table))]
fn prints_table(number: u32) -> bool
    ensures { result ≡ prints_table number }
{
    matches!(number, 0 | 13)
}

// A field of a line: a number, or a time that may be the word for a skipped packet.
#[derive(Clone, Copy)]
enum Field {
    Number(u64),
    Time(u32),
}

// A tab and a field.
#[tactic(auto, unfolding(crate::specs::Printer::field_text))]
fn put(out: &mut [u8], at: usize, field: Field) -> usize
    requires { at + 21 ≤ length out.old }
    ensures { Put 21 out.old out.new at (field_text field) result }
{
    match field {
        Field::Number(n) => put_field(out, at, n),
        Field::Time(time) => put_time(out, at, time),
    }
}

// A line of a word and fields.
fn put_line(out: &mut [u8], word: &[u8], fields: &[Field]) -> usize
    requires { (length word.now ≤ 6) × (length fields.now ≤ 4) × (longest ≤ length out.old) }
    ensures { Put longest out.old out.new 0 (line_of word.now fields.now) result }
{
    let mut next = put_word(out, 0, word);
    for field in fields {
        next = put(out, next, *field);
    }
    put_byte(out, next, FEED)
}

// The first line: the table line, or the refuse line, behind which nothing is left.
fn put_first(output: Output<'_>, out: &mut [u8]) -> Piece
    requires { longest ≤ length out.old }
    ensures { PrintedOf output.entry out.old out.new First result }
{
    let answer = output.answer;
    if prints_table(answer.number) {
        let fields = [
            Field::Number(u64::from(answer.hyper)),
            Field::Number(u64::from(answer.packets)),
        ];
        let len = put_line(out, &TABLE, &fields);
        return Piece {
            len,
            next: Cursor::Packet(0),
        };
    }
    let fields = [
        Field::Number(u64::from(answer.number)),
        Field::Number(u64::from(answer.place)),
    ];
    let len = put_line(out, &REFUSE, &fields);
    Piece {
        len,
        next: Cursor::Done,
    }
}

// A packet's line, or behind the last packet the end line.
fn put_packet(p: u32, output: Output<'_>, out: &mut [u8]) -> Piece
    requires { longest ≤ length out.old }
    ensures { PrintedOf output.entry out.old out.new (Packet p) result }
{
    let answer = output.answer;
    if p < answer.packets {
        let at = p as usize;
        let flow = output.flows.get(at).copied().unwrap_or(0);
        let turn = output.turns.get(at).copied().unwrap_or(0);
        let time = output.table.get(at).copied().unwrap_or(0);
        let fields = [
            Field::Number(u64::from(p)),
            Field::Number(u64::from(flow)),
            Field::Number(u64::from(turn)),
            Field::Time(time),
        ];
        let len = put_line(out, &INJECT, &fields);
        return Piece {
            len,
            next: Cursor::Packet(p + 1),
        };
    }
    let fields = [
        Field::Number(u64::from(answer.passes)),
        Field::Number(answer.tries),
        Field::Number(u64::from(answer.skipped)),
    ];
    let len = put_line(out, &END, &fields);
    Piece {
        len,
        next: Cursor::Done,
    }
}

// The line at a cursor, put at the front of the buffer. A buffer of less than LINE bytes takes nothing and ends the text.
pub fn put_piece(cursor: Cursor, output: Output<'_>, out: &mut [u8]) -> Piece
    ensures { PrintedOf output.entry out.old out.new cursor result }
{
    if out.len() < LINE {
        return Piece {
            len: 0,
            next: Cursor::Done,
        };
    }
    // Kept: a cursor is data that callers hold, and `put_piece` (docs/PROMISES.md) takes each.
    match cursor {
        Cursor::First => put_first(output, out),
        Cursor::Packet(p) => put_packet(p, output, out),
        Cursor::Done => Piece {
            len: 0,
            next: Cursor::Done,
        },
    }
}
