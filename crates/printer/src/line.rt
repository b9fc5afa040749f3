// A line of an answer's text. Its file stands alone: the definitions that name a line may not lead to its ghost field.
ghost use Rattle.std.specs.Prelude.{◌≤◌};

use crate::printing::LINE;

// The bytes of a line, and how many they are.
// Kept: a buffer with a length beside it, since nothing of the product stands on the heap.
#[derive(Drop)]
pub struct Line {
    pub(crate) bytes: [u8; LINE],
    pub(crate) len: usize,
    ghost fits: { len ≤ 96 },
}
