// Words and numbers written into a line's buffer, from a place on. Each writer answers the place behind what it wrote.
// Kept: a buffer and a place, and no struct of both, since `put_byte` to `put_time` (docs/PROMISES.md) take any slice and any place of it.
ghost use Rattle.std.specs.Prelude.{[], ◌∷◌, ◌+◌, ◌≤◌, length};
ghost use Rattle.digits.specs.Numbers.{decimal};
ghost use Rattle.words.specs.Fields.{field, time_field};
ghost use Rattle.words.specs.Writer.{Put};

use crate::words::{NONE, TAB};
use packet::NO_TIME;

// One byte.
pub fn put_byte(out: &mut [u8], at: usize, byte: u8) -> usize
    requires { at + 1 ≤ length out.old }
    ensures { Put 1 out.old out.new at (byte ∷ []) result }
{
    out[at] = byte;
    at + 1
}

// The bytes of a word.
pub fn put_word(out: &mut [u8], at: usize, word: &[u8]) -> usize
    requires { at + length word.now ≤ length out.old }
    ensures { Put (length word.now) out.old out.new at word.now result }
{
    let next = at + word.len();
    out[at..next].copy_from_slice(word);
    next
}

// A number in digits.
pub fn put_number(out: &mut [u8], at: usize, n: u64) -> usize
    requires { at + 20 ≤ length out.old }
    ensures { Put 20 out.old out.new at (decimal n) result }
{
    let mut digits = [0u8; 20];
    let k = io::decimal(n, &mut digits);
    put_word(out, at, &digits[..k])
}

// A tab and a number.
pub fn put_field(out: &mut [u8], at: usize, n: u64) -> usize
    requires { at + 21 ≤ length out.old }
    ensures { Put 21 out.old out.new at (field n) result }
{
    let next = put_byte(out, at, TAB);
    put_number(out, next, n)
}

// A tab and a time, or the word for a skipped packet.
pub fn put_time(out: &mut [u8], at: usize, time: u32) -> usize
    requires { at + 21 ≤ length out.old }
    ensures { Put 21 out.old out.new at (time_field time) result }
{
    let next = put_byte(out, at, TAB);
    let absent = time == NO_TIME;
    if absent {
        return put_word(out, next, &NONE);
    }
    put_number(out, next, u64::from(time))
}
