// Where a packet's twin may stand: a hint for the search, whose answer does not depend on it.
ghost use Rattle.std.specs.Prelude.{◌<◌};

use load::FlowEntry;

// How many packets before each of flow g's the packet of the same turn stands of the nearest flow before it with its path, behind none but
// flows of its period; none if there is no such flow.
fn back_of(flows: &[FlowEntry; 64], hyper: u32, g: usize) -> Option<usize>
    requires { g < 64 }
{
    let own = &flows[g];
    let turns = hyper.checked_div(own.period)?;
    let between = flows[..g]
        .iter()
        .rev()
        .take_while(|other| other.period == own.period)
        .position(|other| other.path.links == own.path.links)?;
    (turns as usize).checked_mul(between + 1)
}

// The same of all flows.
pub fn backs_of(flows: &[FlowEntry; 64], hyper: u32) -> [Option<usize>; 64] {
    let mut backs = [None; 64];
    for (g, back) in backs.iter_mut().enumerate() {
        *back = back_of(flows, hyper, g);
    }
    backs
}
