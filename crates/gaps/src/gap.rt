// The first gap for a packet: one forward sweep over the placed packets, in order of their start.
ghost use Rattle.std.specs.Prelude.{◌≡◌, ◌≤◌, ◌<◌};
ghost use Rattle.kept.specs.Kept.{spot_of};
ghost use Rattle.gaps.specs.Gaps.{gap_for, slots_to, Seeks};
ghost use Rattle.gaps.specs.Sweeps.{time_past, EndAhead, Back};

use kept::Taken;
use load::Traffic;
use marks::{Mark, has_mark};
use mesh::ALL_LINKS;

// Where a packet goes: the time taken, or nowhere; and how many times were tried.
// Kept: no Option beside the tries, since `placing_of` and `pass_from`, which docs/MAP.md names, are by these two cases.
#[derive(Clone, Copy)]
pub enum Placed {
    At { time: u32, tries: u32 },
    Nowhere { tries: u32 },
}

// Where a packet goes, and before which of the placed packets, in order of start, it is put in.
#[derive(Clone, Copy)]
pub struct Gap {
    pub placed: Placed,
    pub spot: usize,
}

// What a gap is sought for: a packet of a flow, at its times from begin up to the latest, in steps of the pruning factor. It is sought
// from a time on before which there is none, among the placed packets from one on before which all are over then.
#[derive(Clone, Copy)]
pub struct Sought {
    pub own: usize,
    pub pruning: u32,
    pub begin: u32,
    pub latest: u32,
    pub from: u32,
    pub at: usize,
}

impl Sought {
    // How many of its times there are up to a time.
    fn times_to(&self, time: u32) -> u32
        requires { (self.now.begin ≤ time) × (0 < self.now.pruning) × (time ≤ 50331648) }
        ensures { result ≡ slots_to self.now.pruning self.now.begin time }
    {
        (time - self.begin) / self.pruning + 1
    }
}

// The first of the times t, t + F and so on that is at an end or past it. Every cycle is a time where the pruning factor is 1.
pub fn time_past(t: u32, end: u32, pruning: u32) -> u32
    requires { EndAhead t end pruning }
    ensures { result ≡ time_past t end pruning }
{
    let each_cycle = pruning == 1;
    if each_cycle {
        return end;
    }
    t + (end - t + pruning - 1) / pruning * pruning
}

// Walks back from a placed packet to the first that starts after a time.
// Kept: the library's search (`Taken::first_after`) was tried in its place: 99 ms for 67 on c_ring_literal (bench/).
fn back_to(taken: &Taken, next: usize, time: u32) -> usize
    requires { Back taken.now next time }
    ensures { result ≡ spot_of taken.now time }
{
    let mut before = &taken.by[..next];
    while let Some((q, rest)) = before.split_last() {
        if taken.times[*q as usize] <= time {
            break;
        }
        before = rest;
    }
    before.len()
}

// The first gap, and where among the placed packets the packet is put in. Where a placed packet is in the way, so it is at every time
// before its end: the next time is the first at its end or past it, and those jumped over count as tried. Placed packets that are over
// stay over, so the sweep never goes back; one that starts after the packet's end ends it, since all later ones start later.
// Kept: traffic beside taken, and no struct of both: between two calls a pass lends taken to `settle` as `&mut`.
pub fn gap_for(traffic: &Traffic, taken: &Taken, marks: &[Mark; ALL_LINKS], sought: &Sought) -> Gap
    requires { Seeks traffic.now marks.now taken.now sought.now }
    ensures { result ≡ gap_for traffic.now taken.now sought.now }
{
    let span = traffic.flows[sought.own].occupancy;
    let mut j = sought.at;
    let mut t = sought.from;
    'times: loop {
        if sought.latest < t {
            let tries = sought.times_to(sought.latest);
            break Gap {
                placed: Placed::Nowhere { tries },
                spot: taken.count,
            };
        }
        // Kept: `split_first` over a slice that outlasts the outer loop was written; its proof, with j in all invariants, is not closed.
        while j < taken.count {
            let q = taken.by[j] as usize;
            let start = taken.times[q];
            if t + span <= start {
                break;
            }
            let other = traffic.packets[q].flow as usize;
            let end = start + traffic.flows[other].occupancy;
            j += 1;
            if end <= t {
                continue;
            }
            let path = traffic.path(other);
            for &link in path {
                if has_mark(marks, sought.own, link) {
                    t = time_past(t, end, sought.pruning);
                    continue 'times;
                }
            }
        }
        let tries = sought.times_to(t);
        break Gap {
            placed: Placed::At { time: t, tries },
            spot: back_to(taken, j, t),
        };
    }
}
