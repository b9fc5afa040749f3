// Mesh numbers, and flows as one list of numbers, so many to a flow.
ghost use Rattle.std.specs.Prelude.{◌≡◌, ◌+◌, ◌*◌, ◌<◌, ◌≤◌, length};
ghost use Rattle.model.specs.Flows.{per_flow, number_of, flow_of, flows_in, occupancy_in};
ghost use Rattle.model.specs.Fair.{Sized};

use time::{Bytes, Cycles, flits_of, occupancy};

// How many numbers a flow has.
pub const PER_FLOW: usize = 5;

// Columns and rows, r, and the flit width in bytes.
#[derive(Clone, Copy)]
pub struct Mesh {
    pub columns: u32,
    pub rows: u32,
    pub r: u32,
    pub flit: u32,
}

// A flow: its source and target nodes, its period and deadline in cycles, its size in bytes.
#[derive(Clone, Copy)]
pub struct Flow {
    pub source: u32,
    pub target: u32,
    pub period: u32,
    pub size: u32,
    pub due: u32,
}

// How many flows the list holds.
#[tactic(auto, unfolding(crate::specs::Flows::flows_in))]
pub fn flows_in(numbers: &[u32]) -> usize
    ensures { result ≡ flows_in numbers.now }
{
    numbers.len() / PER_FLOW
}

// Number i of flow f: source, target, period, size, deadline.
#[tactic(auto, unfolding(crate::specs::Flows::number_of))]
pub fn number_of(numbers: &[u32], f: usize, i: usize) -> u32
    requires { per_flow * f + i < length numbers.now }
    ensures { result ≡ number_of i numbers.now f }
{
    numbers[PER_FLOW * f + i]
}

// Flow f of the list: its five numbers, by their names.
// Kept: what `number_of` promises of any number of a list may not change, so the places 0 to 4 stand here, and only here.
#[tactic(auto, unfolding(crate::specs::Flows::flow_of, crate::specs::Flows::source_of, crate::specs::Flows::target_of, crate::specs::Flows::period_of, crate::specs::Flows::size_of, crate::specs::Flows::due_of))]
pub fn flow_of(numbers: &[u32], f: usize) -> Flow
    requires { per_flow * f + per_flow ≤ length numbers.now }
    ensures { result ≡ flow_of numbers.now f }
{
    Flow {
        source: number_of(numbers, f, 0),
        target: number_of(numbers, f, 1),
        period: number_of(numbers, f, 2),
        size: number_of(numbers, f, 3),
        due: number_of(numbers, f, 4),
    }
}

// The occupancy of flow f's packets.
pub fn occupancy_of(mesh: Mesh, numbers: &[u32], f: usize) -> Cycles
    requires { Sized mesh numbers.now f }
    ensures { result.0 ≡ occupancy_in mesh numbers.now f }
{
    let flow = flow_of(numbers, f);
    let m = mesh::distance(
        mesh.columns as usize,
        flow.source as usize,
        flow.target as usize,
    );
    occupancy(
        Cycles(mesh.r),
        m as u32,
        flits_of(Bytes(flow.size), Bytes(mesh.flit)),
    )
}
