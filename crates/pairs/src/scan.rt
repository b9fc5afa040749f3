// The walk over the pairs of packets for a collision.
ghost use Rattle.std.specs.Prelude.{◌≡◌, ◌<◌};
ghost use Rattle.basics.specs.First.{found};
ghost use Rattle.packet.specs.Table.{time_at};
ghost use Rattle.arrays.specs.Arrays.{packet_in};
ghost use Rattle.pairs.specs.Scan.{first_pair, Timely, meets_in};

use arrays::{Flows, Packets};
use routes::share;
use time::{Cycles, Window, overlap};

// Two packets.
#[derive(Clone, Copy)]
pub struct Pair {
    pub a: usize,
    pub b: usize,
}

// What the walk reads: the flows and packets of a model, and a table offered for them with every time in range.
#[derive(Clone, Copy)]
struct Walk<'a> {
    flows: &'a Flows,
    packets: &'a Packets,
    table: &'a [u32],
    ghost timely: { Timely flows.now packets.now table.now },
}

impl Walk<'_> {
    // The cycles in which packet p is held.
    fn window_of(self, p: usize) -> Window
        requires { p < self.packets.now.count }
        ensures start { result.start.0 ≡ time_at self.entry.table.now p }
        ensures span { result.span.0 ≡ (packet_in self.entry.flows.now self.entry.packets.now p).occupancy }
    {
        Window {
            start: Cycles(self.table[p]),
            span: Cycles(self.packets.all[p].flow_among(&self.flows.all).occupancy),
        }
    }

    // Whether packet a collides with the higher-numbered packet b. Windows are compared before links.
    fn meets(self, a: usize, b: usize) -> bool
        requires { (a < b) × (b < self.packets.now.count) }
        ensures { result ≡ meets_in self.entry.flows.now self.entry.packets.now self.entry.table.now a b }
    {
        let f = self.packets.all[a].flow_among(&self.flows.all);
        let g = self.packets.all[b].flow_among(&self.flows.all);
        overlap(self.window_of(a), self.window_of(b)) && share(f.path, g.path)
    }

    // The lowest packet above a that a collides with, or none.
    fn next_meeting(self, a: usize) -> Option<usize>
        requires { a < self.packets.now.count }
        ensures { result ≡ found (meets_in self.entry.flows.now self.entry.packets.now self.entry.table.now a) self.entry.packets.now.count }
    {
        (a + 1..self.packets.count).find(|&b| self.meets(a, b))
    }
}

// The lowest packet that collides with a higher-numbered one, and the lowest such, or none.
pub fn first_meeting(flows: Flows, packets: Packets, table: &[u32]) -> Option<Pair>
    requires { Timely flows packets table.now }
    ensures { result ≡ first_pair flows packets table.now }
{
    let walk = Walk {
        flows: &flows,
        packets: &packets,
        table,
    };
    // Kept: `find_map` was tried; no lemma of std gives its answer over a range.
    for a in 0..packets.count {
        if let Some(b) = walk.next_meeting(a) {
            return Some(Pair { a, b });
        }
    }
    None
}
