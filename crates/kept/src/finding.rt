// The placed packets in order of their start, and the first of them that starts after a time.
ghost use Rattle.std.specs.Prelude.{◌≡◌};
ghost use Rattle.kept.specs.Kept.{spot_of, Kept};

// The packets placed in a pass: the time of each, and their numbers in order of start, which are the first count of by.
// Kept: the list is an array of 1,024, as `put_in` (docs/PROMISES.md) takes one; `Kept` is no ghost field, as `settle` may ask no more.
#[derive(Clone, Copy)]
pub struct Taken {
    pub times: [u32; 1024],
    pub by: [u16; 1024],
    pub count: usize,
}

impl Taken {
    // The first of the placed packets, in order of start, that starts after a time; by halves.
    pub fn first_after(&self, time: u32) -> usize
        requires { Kept self.now }
        ensures { result ≡ spot_of self.now time }
    {
        self.by[..self.count].partition_point(|q| {
            self.times
                .get(usize::from(*q))
                .is_some_and(|start| *start <= time)
        })
    }
}
