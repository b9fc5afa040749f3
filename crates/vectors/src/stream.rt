// Calls on standard input, read byte by byte through a buffer: words, numbers, lists of numbers and texts.
ghost use Rattle.std.specs.Prelude.{◌≡◌, ◌<◌, ◌≤◌, false};

// The number of standard input.
const STDIN: i32 = 0;

// So many bytes are read at once, at most.
const BUFFER: usize = 65536;

// The most bytes of a number, with the one that ends it.
pub const NUMBER: usize = 21;

// Standard input: the bytes that were read, of which those from `at` on to `end` are still to come.
#[derive(Drop)]
pub struct Stream {
    buffer: [u8; BUFFER],
    at: usize,
    end: usize,
    // Kept: what the program prints may not change, and it answers a malformed call too, as the last, with 0 for what is missing.
    pub malformed: bool,
    ghost in_order: { at ≤ end },
    ghost filled: { end ≤ 65536 },
}

// A value with a digit put behind it, where the byte is one and there is room for any.
fn with_digit(value: u64, byte: u8) -> Option<u64> {
    if !byte.is_ascii_digit() || value > (u64::MAX - 9) / 10 {
        return None;
    }
    Some(value * 10 + u64::from(byte - b'0'))
}

impl Stream {
    // The input, of which nothing is read yet.
    pub fn new() -> Stream {
        Stream {
            buffer: [0; BUFFER],
            at: 0,
            end: 0,
            malformed: false,
        }
    }

    // Whether the input has ended; where no byte is left in the buffer, the next are read.
    pub fn ended(&mut self) -> bool
        ensures { result ≡ false → self.new.at < self.new.end }
    {
        if self.at == self.end {
            self.at = 0;
            self.end = io::read_full(STDIN, &mut self.buffer);
        }
        self.at == self.end
    }

    // The next byte, where the input has not ended.
    fn next_byte(&mut self) -> Option<u8> {
        if self.ended() {
            return None;
        }
        let byte = self.buffer[self.at];
        self.at += 1;
        Some(byte)
    }

    // The next number, with the one blank or line feed that ends it.
    fn next_number(&mut self) -> Option<u64> {
        let mut value = None;
        for _ in 0..NUMBER {
            match self.next_byte()? {
                b' ' | b'\n' => return value,
                byte => value = Some(with_digit(value.unwrap_or(0), byte)?),
            }
        }
        None
    }

    // What was read; where nothing was, the call is malformed, and 0 stands for it.
    fn or_zero<T: Default + Copy>(&mut self, read: Option<T>) -> T {
        self.malformed |= read.is_none();
        read.unwrap_or_default()
    }

    // The next byte, of a call's first letter or of a text.
    pub fn byte(&mut self) -> u8 {
        let read = self.next_byte();
        self.or_zero(read)
    }

    // The next number of 32 bits.
    pub fn number(&mut self) -> u32 {
        let read = self.next_number().and_then(|n| u32::try_from(n).ok());
        self.or_zero(read)
    }

    // The next number as a length, at most so great.
    fn length(&mut self, most: usize) -> usize
        ensures { result ≤ most }
    {
        match self.next_number() {
            Some(n) if n <= most as u64 => n as usize,
            _ => {
                self.malformed = true;
                0
            }
        }
    }

    // The bytes that must stand next; others make the call malformed.
    pub fn word(&mut self, bytes: &[u8]) {
        let all = bytes.iter().all(|byte| self.next_byte() == Some(*byte));
        self.malformed |= !all;
    }

    // The next list, its length first, at the front of a lent array, for which one that is longer makes the call malformed.
    fn list<'a, T: Copy, F: FnMut(&mut Stream) -> T>(
        &mut self,
        array: &'a mut [T],
        mut next: F,
    ) -> &'a mut [T]
        requires { F.IsAlwaysCallable next }
    {
        let len = self.length(array.len());
        let list = &mut array[..len];
        for place in list.iter_mut() {
            *place = next(self);
        }
        list
    }

    // The next list of numbers.
    pub fn numbers<'a>(&mut self, array: &'a mut [u32]) -> &'a mut [u32] {
        self.list(array, |stream| stream.number())
    }

    // The next text.
    pub fn text<'a>(&mut self, array: &'a mut [u8]) -> &'a mut [u8] {
        self.list(array, |stream| stream.byte())
    }
}
