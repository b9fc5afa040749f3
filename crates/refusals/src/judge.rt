// Refusals 2 and 4 to 9: the order of the tests in one place.
ghost use Rattle.std.specs.Prelude.{◌≡◌};
ghost use Rattle.refusals.specs.Refusals.{flow_refusal, flows_refusal, sums_refusal, refusal_of};
ghost use Rattle.model.specs.Fair.{FairMesh, FairList, Listed, Timed};

use limits::{bad_list, bad_mesh, bad_nodes, bad_times, too_long};
use model::{Mesh, Refusal, flows_in, hyper_in, packets_in};

// The tests of one flow, in order.
#[tactic(auto, using(crate::proofs::Accepted::sized_past), unfolding(crate::specs::Refusals::flow_refusal, crate::specs::Refusals::refuse_if))]
fn refuse_flow(mesh: Mesh, numbers: &[u32], f: usize) -> Result<(), Refusal>
    requires { Listed mesh numbers.now f }
    ensures { result ≡ flow_refusal mesh numbers.now f }
{
    let flow = f as u32;
    if bad_nodes(mesh, numbers, f) {
        return Err(Refusal::BadNodes { flow });
    }
    if bad_times(numbers, f) {
        return Err(Refusal::BadTimes { flow });
    }
    if too_long(mesh, numbers, f) {
        return Err(Refusal::TooLong { flow });
    }
    Ok(())
}

// The tests of all flows, flow by flow.
#[tactic(auto, using(crate::proofs::Accepted::flows_accepted, crate::proofs::Accepted::flows_refused, crate::proofs::Accepted::flow_good), unfolding(model::specs::Flows::flows_in))]
fn refuse_flows(mesh: Mesh, numbers: &[u32]) -> Result<(), Refusal>
    requires { FairMesh mesh × FairList numbers.now }
    ensures { result ≡ flows_refusal mesh numbers.now }
{
    // Kept: f is the flow's number, which the tests and the refusal's place want.
    for f in 0..flows_in(numbers) {
        refuse_flow(mesh, numbers, f)?;
    }
    Ok(())
}

// 8: H above 16,777,216. 9: more than 1,024 packets.
#[tactic(auto, using(hyperperiod::proofs::HyperPeriod::above_only, model::proofs::Packing::is_only), unfolding(crate::specs::Refusals::sums_refusal, crate::specs::Refusals::bad_hyper, crate::specs::Refusals::bad_packets, crate::specs::Refusals::refuse_if, model::specs::Packets::hyper_in))]
fn refuse_sums(numbers: &[u32]) -> Result<(), Refusal>
    requires { Timed numbers.now }
    ensures { result ≡ sums_refusal numbers.now }
{
    let hyper = hyper_in(numbers).ok_or(Refusal::LongHyper)?;
    if 1024 < packets_in(numbers, hyper) {
        return Err(Refusal::ManyPackets);
    }
    Ok(())
}

// The order of the tests: 2; what the caller tests between 2 and 4; 4; then flow by flow 5, 6, 7; then 8, 9.
// Kept: between is a value, since `refusal` (docs/PROMISES.md) takes what its caller tests.
// Kept: mesh and numbers stand apart, since `check` and `search` (docs/PROMISES.md) take them so; bad_mesh takes the one and ten
// functions the other alone.
#[tactic(auto, unfolding(crate::specs::Refusals::refusal_of, crate::specs::Refusals::refuse_if), using(limits::proofs::Past::mesh_fair, limits::proofs::Past::list_fair, crate::proofs::Accepted::timed_past))]
pub fn refusal(mesh: Mesh, between: Result<(), Refusal>, numbers: &[u32]) -> Result<(), Refusal>
    ensures { result ≡ refusal_of mesh between numbers.now }
{
    if bad_mesh(mesh) {
        return Err(Refusal::BadMesh);
    }
    between?;
    if bad_list(numbers) {
        return Err(Refusal::BadList);
    }
    refuse_flows(mesh, numbers)?;
    refuse_sums(numbers)
}
