// The walk over the packets for a time out of range.
ghost use Rattle.std.specs.Prelude.{◌≡◌, ◌<◌};
ghost use Rattle.basics.specs.First.{found};
ghost use Rattle.ranges.specs.Ranges.{strays, Scan};

use arrays::{Flows, Packets};

// Whether packet p may not start at its time.
// Kept: flows, packets and table apart, as `first_outside` (docs/PROMISES.md), its one caller, has them.
fn strays(flows: &Flows, packets: &Packets, table: &[u32], p: usize) -> bool
    requires { Scan flows.now packets.now table.now × (p < packets.now.count) }
    ensures { result ≡ strays flows.now packets.now table.now p }
{
    let packet = packets.all[p];
    let flow = packet.flow_among(&flows.all);
    let release = packet.release;
    let latest = release + flow.due - flow.occupancy;
    let time = table[p];
    let early = time < release;
    let late = latest < time;
    early || late
}

// The lowest packet whose time is outside its start range, or none.
pub fn first_outside(flows: Flows, packets: Packets, table: &[u32]) -> Option<usize>
    requires { Scan flows packets table.now }
    ensures { result ≡ found (strays flows packets table.now) packets.count }
{
    (0..packets.count).find(|&p| strays(&flows, &packets, table, p))
}
