// The flows and the packets of a model that is not refused, as arrays by value.
ghost use Rattle.std.specs.Prelude.{◌≡◌, ◌<◌, []};
ghost use Rattle.model.specs.Flows.{flows_in};
ghost use Rattle.model.specs.Packets.{packets_of};
ghost use Rattle.model.specs.Fair.{Fair};
ghost use Rattle.model.specs.declared.flows.Mesh.{Mesh};
ghost use Rattle.arrays.specs.Arrays.{Packable, no_flows, flows_up_to, flow_numbers, arrays_of, with_one, with_flow, model_of};

use load::{FlowEntry, PacketEntry};
use model::{Mesh, flow_of, flows_in, hyper_in, occupancy_of};
use routes::route;

// The flows: the first count of all; what follows them is 0.
#[derive(Clone, Copy)]
pub struct Flows {
    pub count: usize,
    pub all: [FlowEntry; 64],
}

impl Flows {
    // No flows.
    fn none() -> Flows
        ensures { result ≡ no_flows }
    {
        Flows {
            count: 0,
            all: [FlowEntry::default(); 64],
        }
    }

    // One flow more, behind the others.
    fn push(&mut self, flow: FlowEntry)
        requires { self.old.count < 64 }
        ensures { self.new ≡ with_flow self.old flow }
    {
        self.all[self.count] = flow;
        self.count += 1;
    }
}

// The packets of one hyper-period: the first count of all; what follows them is 0.
#[derive(Clone, Copy)]
pub struct Packets {
    pub count: usize,
    pub all: [PacketEntry; 1024],
}

impl Packets {
    // No packets.
    fn none() -> Packets
        ensures { result ≡ arrays_of [] }
    {
        Packets {
            count: 0,
            all: [PacketEntry::default(); 1024],
        }
    }

    // One packet more, behind the others.
    fn push(&mut self, packet: PacketEntry)
        requires { self.old.count < 1024 }
        ensures { self.new ≡ with_one self.old packet }
    {
        let at = self.count;
        self.all[at] = packet;
        self.count = at + 1;
    }

    // The number of each packet's flow.
    pub fn flow_numbers(&self) -> [u16; 1024]
        ensures { result ≡ flow_numbers self.now.all }
    {
        self.all.map(|packet| packet.flow)
    }
}

// A model that is not refused: its hyper-period, its flows and its packets.
#[derive(Clone, Copy)]
pub struct Model {
    pub hyper: u32,
    pub flows: Flows,
    pub packets: Packets,
}

// The flows of a model that is not refused, written one after the other.
fn flows_of(mesh: Mesh, numbers: &[u32]) -> Flows
    requires { Fair mesh numbers.now }
    ensures { result ≡ flows_up_to mesh numbers.now (flows_in numbers.now) }
{
    let mut flows = Flows::none();
    for f in 0..flows_in(numbers) {
        let flow = flow_of(numbers, f);
        let held = occupancy_of(mesh, numbers, f);
        let path = route(
            mesh.columns as usize,
            flow.source as usize,
            flow.target as usize,
        );
        flows.push(FlowEntry {
            period: flow.period,
            due: flow.due,
            occupancy: held.0,
            path,
        });
    }
    flows
}

// The packets of a hyper-period, flow after flow, those of a flow a period apart; the mesh has no part in them.
fn packets_of(numbers: &[u32], hyper: u32) -> Packets
    requires { Packable numbers.now hyper }
    ensures { (mesh : Mesh) → result ≡ arrays_of (packets_of mesh numbers.now) }
{
    let mut packets = Packets::none();
    for f in 0..flows_in(numbers) {
        let period = flow_of(numbers, f).period;
        for k in 0..hyper / period {
            packets.push(PacketEntry {
                flow: f as u16,
                release: k * period,
            });
        }
    }
    packets
}

// The hyper-period, the flows and the packets of a model that is not refused.
pub fn model_of(mesh: Mesh, numbers: &[u32]) -> Model
    requires { Fair mesh numbers.now }
    ensures { result ≡ model_of mesh numbers.now }
{
    let hyper = hyper_in(numbers).unwrap();
    Model {
        hyper,
        flows: flows_of(mesh, numbers),
        packets: packets_of(numbers, hyper),
    }
}
