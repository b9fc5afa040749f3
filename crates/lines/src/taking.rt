// A line taken from its place in the text.
ghost use Rattle.std.specs.Prelude.{◌≡◌, ◌≤◌, length, replicate, IfNone};
ghost use Rattle.std.specs.Option.{option_map};
ghost use Rattle.lines.specs.Steps.{line_at};

use records::{find, read_into};
use words::FEED;

// A line of the text: its numbers, and the place behind it.
#[derive(Clone, Copy)]
pub struct Line<const N: usize> {
    pub numbers: [u32; N],
    pub next: usize,
}

// Reads the line at a place, as the record of a word and as many numbers as the slice has, and answers the place behind it; its line feed must
// end it, and where there is no such line it leaves zeros.
#[tactic(auto, using(records::proofs::Places::place_some, crate::proofs::TextLines::line_unended, crate::proofs::TextLines::line_wrong, crate::proofs::TextLines::line_right))]
pub fn read_line_into(text: &[u8], at: usize, word: &[u8], numbers: &mut [u32]) -> Option<usize>
    requires { at ≤ length text.now }
    ensures read { line_at word.now (length numbers.old) text.now at ≡ option_map (λ next. record { numbers = numbers.new; next = next }) result }
    ensures cleared { IfNone result (numbers.new ≡ replicate (length numbers.old) 0) }
{
    let Some(end) = find(text, FEED, at) else {
        numbers.fill(0);
        return None;
    };
    read_into(&text[at..end], word, numbers)?;
    Some(end + 1)
}

// The line at a place, as the record of a word and N numbers; its line feed must end it.
pub fn read_line<const N: usize>(text: &[u8], at: usize, word: &[u8]) -> Option<Line<N>>
    requires { at ≤ length text.now }
    ensures { result ≡ line_at word.now N text.now at }
{
    let mut numbers = [0; N];
    let next = read_line_into(text, at, word, &mut numbers)?;
    Some(Line { numbers, next })
}
