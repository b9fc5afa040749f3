// The text reader: a mesh line, a search line, then flow lines.
ghost use Rattle.std.specs.Prelude.{◌≡◌};
ghost use Rattle.model.specs.declared.answers.Refusal.TheVariants.{Malformed};
ghost use Rattle.reader.specs.Reader.{malformed_place, input_of};
ghost use Rattle.reader.specs.declared.reading.Malformed.TheVariants.{Line};

use lines::{BadLine, KEPT_NUMBERS, Lines, read_flows, read_line};
use model::{Mesh, Refusal};
use words::{MESH, SEARCH};

// The most bytes of a text.
pub const LIMIT: usize = 8192;

// A buffer of so many bytes, one past the limit, shows a text that is too long.
pub const TEXT_BUFFER: usize = LIMIT + 1;

// Why a text is malformed.
#[derive(Clone, Copy, Debug, PartialEq, Eq)]
pub enum Malformed {
    // It has more bytes than a text may have.
    OverLimit,
    // This line is bad, the first that is.
    Line(u32),
}

impl From<BadLine> for Malformed {
    ghost from_gives = { λ bad e. e ≡ Line bad.line };

    fn from(bad: BadLine) -> Malformed {
        Malformed::Line(bad.line)
    }
}

impl From<Malformed> for Refusal {
    ghost from_gives = { λ why refusal. refusal ≡ Malformed (malformed_place why) };

    #[tactic(auto, unfolding(crate::specs::Reader::malformed_place))]
    fn from(why: Malformed) -> Refusal {
        let line = match why {
            Malformed::OverLimit => 0,
            Malformed::Line(line) => line,
        };
        Refusal::Malformed { line }
    }
}

// What a well-formed text says; the numbers of the first 65 flows are kept, beside how many flow lines there are.
// Kept: pruning and threshold apart, as `search` (docs/PROMISES.md) takes them.
// Kept: no heap, so the numbers stand in an array; the count is of all flow lines, which may be more than it holds.
#[derive(Clone, Copy)]
pub struct Input {
    pub mesh: Mesh,
    pub pruning: u32,
    pub threshold: u32,
    pub numbers: [u32; KEPT_NUMBERS],
    pub flows: usize,
}

// What a text says, or why it is malformed.
#[tactic(auto, using(crate::proofs::WholeText::too_long_lem, crate::proofs::WholeText::first_bad, crate::proofs::WholeText::second_bad, crate::proofs::WholeText::third_bad, crate::proofs::WholeText::all_good, crate::proofs::WholeText::next_within), unfolding(crate::proofs::WholeText::says))]
pub fn read(text: &[u8]) -> Result<Input, Malformed>
    ensures { result ≡ input_of text.now }
{
    if LIMIT < text.len() {
        return Err(Malformed::OverLimit);
    }
    let first = read_line::<4>(text, 0, &MESH).ok_or(Malformed::Line(1))?;
    let second = read_line::<2>(text, first.next, &SEARCH).ok_or(Malformed::Line(2))?;
    let Lines { numbers, count } = read_flows(text, second.next)?;
    let [columns, rows, r, flit] = first.numbers;
    let [pruning, threshold] = second.numbers;
    Ok(Input {
        mesh: Mesh {
            columns,
            rows,
            r,
            flit,
        },
        pruning,
        threshold,
        numbers,
        flows: count,
    })
}
