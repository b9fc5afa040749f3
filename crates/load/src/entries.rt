// What is read of each flow and of each packet.
ghost use Rattle.std.specs.Prelude.{◌≡◌, ◌<◌};
ghost use Rattle.load.specs.Entries.{nth_flow};

use routes::Path;

// A flow: its period, deadline, occupancy and path.
#[derive(Clone, Copy, Default)]
pub struct FlowEntry {
    pub period: u32,
    pub due: u32,
    pub occupancy: u32,
    pub path: Path,
}

// A packet: its flow and its release.
#[derive(Clone, Copy, Default)]
pub struct PacketEntry {
    pub flow: u16,
    pub release: u32,
}

impl PacketEntry {
    // The packet's flow among the flows.
    pub fn flow_among(self, flows: &[FlowEntry; 64]) -> &FlowEntry
        requires { self.flow < 64 }
        ensures { result.now ≡ nth_flow flows.now self.flow }
    {
        &flows[usize::from(self.flow)]
    }
}
