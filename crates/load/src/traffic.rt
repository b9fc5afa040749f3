// What the search reads of a model.
ghost use Rattle.std.specs.Prelude.{◌≡◌, ◌<◌};
ghost use Rattle.load.specs.Load.{path_for, Paths};

use crate::entries::{FlowEntry, PacketEntry};

// The packets, the first count of them; the flows, and how many packets before each of its own a flow's twin may stand, if there is one;
// and the longest occupancy. What follows them is 0.
// Kept: back beside flows, since it is a hint of the search and not of the model, whose flows are taken whole.
#[derive(Clone, Copy)]
pub struct Traffic {
    pub count: usize,
    pub packets: [PacketEntry; 1024],
    pub flows: [FlowEntry; 64],
    pub longest: u32,
    pub back: [Option<usize>; 64],
}

impl Traffic {
    // The links of a flow's path.
    #[tactic(auto, unfolding(crate::specs::Load::path_in))]
    pub fn path(&self, g: usize) -> &[u16]
        requires { (g < 64) × Paths self.now.flows }
        ensures { result.now ≡ path_for self.now g }
    {
        self.flows[g].path.listed()
    }
}
