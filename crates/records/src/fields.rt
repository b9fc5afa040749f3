// A line taken apart: its word, and the numbers behind it.
ghost use Rattle.std.specs.Prelude.{◌≡◌, ◌≤◌, length, replicate, IfNone};
ghost use Rattle.std.specs.Option.{option_map};
ghost use Rattle.records.specs.Records.{place_from, record_of};

use digits::read_number;
use words::TAB;

// The largest number that a field may hold.
pub const LARGEST: u64 = 4_294_967_295;

// The place of the first such byte from a place on.
pub fn find(text: &[u8], byte: u8, from: usize) -> Option<usize>
    requires { from ≤ length text.now }
    ensures { result ≡ place_from byte text.now from }
{
    let place = text[from..].iter().position(|x| *x == byte)?;
    Some(from + place)
}

// Reads the numbers of a line that is the record of a word and as many numbers as the slice has; of another line it may write some.
fn read_fields(line: &[u8], word: &[u8], numbers: &mut [u32]) -> Option<()>
    ensures { option_map (λ _. numbers.new) result ≡ record_of word.now (length numbers.old) line.now }
{
    let mut fields = line.split(|byte| *byte == TAB);
    if fields.next()? != word {
        return None;
    }
    for number in numbers {
        *number = read_number(fields.next()?, 10, LARGEST)? as u32;
    }
    match fields.next() {
        None => Some(()),
        Some(_) => None,
    }
}

// Reads the numbers of a line that is the record of a word and as many numbers as the slice has; of another line it leaves zeros.
pub fn read_into(line: &[u8], word: &[u8], numbers: &mut [u32]) -> Option<()>
    ensures read { option_map (λ _. numbers.new) result ≡ record_of word.now (length numbers.old) line.now }
    ensures cleared { IfNone result (numbers.new ≡ replicate (length numbers.old) 0) }
{
    let read = read_fields(line, word, numbers);
    if read.is_none() {
        numbers.fill(0);
    }
    read
}

// The numbers of a line that is the record of a word and N numbers.
pub fn read_record<const N: usize>(line: &[u8], word: &[u8]) -> Option<[u32; N]>
    ensures { result ≡ record_of word.now N line.now }
{
    let mut numbers = [0; N];
    read_into(line, word, &mut numbers)?;
    Some(numbers)
}
