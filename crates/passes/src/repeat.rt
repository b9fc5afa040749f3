// The passes, from a list of packets on, until one runs to the end of its list.
ghost use Rattle.passes.specs.Search.{Searches, Searched};

use crate::walk::{Settings, pass};
use load::Traffic;
use settling::State;

// What the passes leave: the table, the passes begun, and the times tried.
#[derive(Clone, Copy)]
pub struct Outcome {
    pub times: [u32; 1024],
    pub passes: u32,
    pub tries: u64,
}

// The passes: one that is broken off is followed by a new one, one that runs to the end is the result. The fail counts are never set
// back.
pub fn rounds(list: [u16; 1024], traffic: &Traffic, settings: Settings) -> Outcome
    requires { Searches traffic.now settings.pruning settings.threshold list }
    ensures { Searched traffic.now settings.pruning settings.threshold list result }
{
    let mut state = State {
        order: list,
        fails: [0; 1024],
        base: 0,
    };
    let mut passes: u32 = 0;
    let mut tries: u64 = 0;
    loop {
        let passed = pass(&mut state, traffic, settings);
        passes += 1;
        tries += passed.tries;
        match passed.table {
            Ok(times) => {
                return Outcome {
                    times,
                    passes,
                    tries,
                };
            }
            Err(_) => {}
        }
    }
}
