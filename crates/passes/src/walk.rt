// One pass: the packets are taken in list order, each placed, moved to the front, or skipped.
ghost use Rattle.placing.specs.Traffic.{packets_held};
ghost use Rattle.passes.specs.Stand.{Runs, Ran};

use gaps::Placed;
use load::Traffic;
use marks::Mark;
use mesh::ALL_LINKS;
use placing::place;
use settling::{State, Turned, nothing_taken, settle};

// The settings of a search: pruning factor F, threshold G.
#[derive(Clone, Copy)]
pub struct Settings {
    pub pruning: u32,
    pub threshold: u32,
}

// What a pass leaves beside the state: the table, as one of a pass that ran to the end of its list, or of one that was broken off; and the
// times tried.
#[derive(Clone, Copy)]
pub struct Passed {
    pub table: Result<[u32; 1024], [u32; 1024]>,
    pub tries: u64,
}

// A pass begins with nothing placed and takes the packets in list order. Placed, a packet stays in the list; else it is turned away.
pub fn pass(state: &mut State, traffic: &Traffic, settings: Settings) -> Passed
    requires { Runs traffic.now settings.pruning settings.threshold state.old }
    ensures { Ran (packets_held traffic.now) settings.pruning settings.threshold state.old state.new result }
{
    let mut taken = nothing_taken();
    let mut marks = [Mark::NONE; ALL_LINKS];
    let mut tries: u64 = 0;
    // Kept: a packet that is turned away moves the packets before it, so the order is lent to no iterator.
    for at in state.base..traffic.count {
        let packet = state.order[at];
        let gap = place(
            traffic,
            &taken,
            &mut marks,
            settings.pruning,
            packet as usize,
        );
        match gap.placed {
            Placed::At { time, tries: tried } => {
                settle(&mut taken, gap.spot, packet, time);
                tries += tried as u64;
            }
            Placed::Nowhere { tries: tried } => {
                tries += tried as u64;
                match state.turn_away(at, packet, settings.threshold) {
                    Turned::Again => {
                        return Passed {
                            table: Err(taken.times),
                            tries,
                        };
                    }
                    Turned::Skipped => {}
                }
            }
        }
    }
    Passed {
        table: Ok(taken.times),
        tries,
    }
}
