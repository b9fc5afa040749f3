// The tests of refusals 2 and 4 to 7, each a function.
ghost use Rattle.std.specs.Prelude.{◌≡◌, ◌+◌, ◌*◌, ◌≤◌, length};
ghost use Rattle.limits.specs.Limits.{out_of_range, bad_mesh, bad_list, bad_nodes, bad_times, too_long};
ghost use Rattle.model.specs.Flows.{per_flow};
ghost use Rattle.model.specs.Fair.{Listed, Sized};

use model::{Mesh, PER_FLOW, flow_of, flows_in, occupancy_of};

// Whether a number lies outside a range, both ends of which are in it.
#[tactic(auto, unfolding(crate::specs::Limits::out_of_range))]
pub fn out_of_range(low: u32, high: u32, n: u32) -> bool
    ensures { result ≡ out_of_range low high n }
{
    !(low..=high).contains(&n)
}

// 2: columns or rows outside 1 to 16; r or flit width outside 1 to 64.
#[tactic(auto, unfolding(crate::specs::Limits::bad_mesh))]
pub fn bad_mesh(mesh: Mesh) -> bool
    ensures { result ≡ bad_mesh mesh }
{
    out_of_range(1, 16, mesh.columns)
        || out_of_range(1, 16, mesh.rows)
        || out_of_range(1, 64, mesh.r)
        || out_of_range(1, 64, mesh.flit)
}

// 4: flows not 1 to 64, or the list of numbers not whole flows.
#[tactic(auto, unfolding(crate::specs::Limits::bad_list, crate::specs::Limits::out_of_range))]
pub fn bad_list(numbers: &[u32]) -> bool
    ensures { result ≡ bad_list numbers.now }
{
    numbers.len() % PER_FLOW != 0 || !(1..=64).contains(&flows_in(numbers))
}

// Kept: the tests of a flow take the list and its number, since `nodes_fair`, `times_fair`, `long_fair` (docs/PROMISES.md) are of these.

// 5: source or target no node, or the two equal.
#[tactic(auto, unfolding(crate::specs::Limits::bad_nodes, model::specs::Flows::flow_of))]
pub fn bad_nodes(mesh: Mesh, numbers: &[u32], f: usize) -> bool
    requires { Listed mesh numbers.now f }
    ensures { result ≡ bad_nodes mesh numbers.now f }
{
    let nodes = mesh.columns * mesh.rows;
    let flow = flow_of(numbers, f);
    nodes <= flow.source || nodes <= flow.target || flow.source == flow.target
}

// 6: T outside 1 to 16,777,216, size outside 1 to 65,536, D outside 1 to T.
#[tactic(auto, unfolding(crate::specs::Limits::bad_times, model::specs::Flows::flow_of))]
pub fn bad_times(numbers: &[u32], f: usize) -> bool
    requires { per_flow * f + per_flow ≤ length numbers.now }
    ensures { result ≡ bad_times numbers.now f }
{
    let flow = flow_of(numbers, f);
    out_of_range(1, hyperperiod::MOST, flow.period)
        || out_of_range(1, 65_536, flow.size)
        || out_of_range(1, flow.period, flow.due)
}

// 7: occupancy above D.
#[tactic(auto, unfolding(crate::specs::Limits::too_long, model::specs::Flows::flow_of))]
pub fn too_long(mesh: Mesh, numbers: &[u32], f: usize) -> bool
    requires { Sized mesh numbers.now f }
    ensures { result ≡ too_long mesh numbers.now f }
{
    let held = occupancy_of(mesh, numbers, f);
    flow_of(numbers, f).due < held.0
}
