// Bytes, flits and cycles. Bytes become flits only through the flit width, flits become cycles only through the occupancy.
ghost use Rattle.std.specs.Prelude.{◌≡◌, ◌<◌, ◌≤◌};
ghost use Rattle.time.specs.Units.{flits_of, occupancy_of};

// A size or a width in bytes.
#[derive(Clone, Copy, PartialEq, Eq)]
pub struct Bytes(pub u32);

// A payload in flits.
#[derive(Clone, Copy, PartialEq, Eq)]
pub struct Flits(pub u32);

// A time in cycles.
#[derive(Clone, Copy, PartialEq, Eq, PartialOrd, Ord)]
pub struct Cycles(pub u32);

// The payload of a size, in flits of the width.
#[tactic(auto, unfolding(crate::specs::Units::flits_of))]
pub fn flits_of(size: Bytes, width: Bytes) -> Flits
    requires { 0 < width.0 }
    ensures { result ≡ flits_of size width }
{
    Flits(size.0 / width.0)
}

// The cycles for which a payload holds its path: r for each router, the payload, and one.
#[tactic(auto, unfolding(crate::specs::Units::occupancy_of))]
pub fn occupancy(r: Cycles, distance: u32, payload: Flits) -> Cycles
    requires { (r.0 ≤ 64) × (distance ≤ 30) × (payload.0 ≤ 65536) }
    ensures { result ≡ occupancy_of r distance payload }
{
    Cycles(r.0 * (distance + 1) + payload.0 + 1)
}
