// The time from which on a gap for a packet is sought: behind its twin, if it has one that is placed.
ghost use Rattle.std.specs.Prelude.{◌≡◌};
ghost use Rattle.twins.specs.Twins.{is_twin, twin_at, resume_at, Pair, Resume};

use gaps::time_past;
use kept::Taken;
use load::Traffic;
use packet::NO_TIME;

// Whether packet q is a twin of packet p that is placed: it has the same release and the same path, and no longer occupancy.
#[tactic(auto, using(crate::proofs::Twinning::path_test), unfolding(crate::specs::Twins::is_twin, load::specs::Load::span_of, load::specs::Load::flow_at))]
fn is_twin(traffic: &Traffic, taken: &Taken, p: usize, q: usize) -> bool
    requires { Pair traffic.now p q }
    ensures { result ≡ is_twin traffic.now taken.now p q }
{
    let own = traffic.packets[p].flow as usize;
    let other = traffic.packets[q].flow as usize;
    taken.times[q] != NO_TIME
        && traffic.packets[q].release == traffic.packets[p].release
        && traffic.flows[other].occupancy <= traffic.flows[own].occupancy
        && traffic.path(own) == traffic.path(other)
}

// The twin of packet p that is placed, if it has one: it is sought so many packets before it as its flow says.
fn twin_of(traffic: &Traffic, taken: &Taken, p: usize) -> Option<usize>
    requires { Pair traffic.now p p }
    ensures { result ≡ twin_at traffic.now taken.now p }
{
    let back = traffic.back[traffic.packets[p].flow as usize]?;
    let q = p.checked_sub(back)?;
    if q < p && is_twin(traffic, taken, p, q) {
        Some(q)
    } else {
        None
    }
}

// The time from which on a gap for packet p is sought, of its times from its release on. What was in the way of its twin is in its way
// too, and then the twin itself is, up to its end.
// Kept: traffic beside taken, and no struct of both: between two calls a pass lends taken to `settle` as `&mut`.
pub fn resume(traffic: &Traffic, taken: &Taken, pruning: u32, p: usize) -> u32
    requires { Resume traffic.now taken.now pruning p }
    ensures { result ≡ resume_at traffic.now taken.now pruning p }
{
    match twin_of(traffic, taken, p) {
        Some(q) => {
            let start = taken.times[q];
            let other = traffic.packets[q].flow as usize;
            time_past(start, start + traffic.flows[other].occupancy, pruning)
        }
        None => traffic.packets[p].release,
    }
}
