// Placing one packet among those placed.
ghost use Rattle.std.specs.Prelude.{◌≡◌};
ghost use Rattle.kept.specs.Kept.{Kept};
ghost use Rattle.placing.specs.Held.{Over, Placeable, place_in, stamped_for};

use gaps::{Gap, Sought, gap_for};
use kept::Taken;
use load::Traffic;
use marks::{Mark, stamp};
use mesh::ALL_LINKS;
use twins::resume;

// Where a sweep may begin: every placed packet before it is over at the time, even the longest.
fn not_over(taken: &Taken, time: u32, longest: u32) -> usize
    requires { Kept taken.now }
    ensures { Over taken.now time longest result }
{
    match time.checked_sub(longest) {
        Some(early) => taken.first_after(early),
        None => 0,
    }
}

// Where packet p goes, in steps of the pruning factor from its release up to its latest start, and before which of the placed packets it
// is put in. A gap is sought behind its twin, if it has one. The links of its path are marked.
// Kept: traffic beside taken, and no struct of both: between two calls a pass lends taken to `settle` as `&mut`.
pub fn place(
    traffic: &Traffic,
    taken: &Taken,
    marks: &mut [Mark; ALL_LINKS],
    pruning: u32,
    p: usize,
) -> Gap
    requires { Placeable traffic.now taken.now marks.old pruning p }
    ensures { (result ≡ place_in traffic.now taken.now pruning p) × (marks.new ≡ stamped_for traffic.now p marks.old) }
{
    let own = traffic.packets[p].flow as usize;
    let begin = traffic.packets[p].release;
    let latest = begin + traffic.flows[own].due - traffic.flows[own].occupancy;
    let from = resume(traffic, taken, pruning, p);
    let at = not_over(taken, from, traffic.longest);
    stamp(marks, traffic.path(own), own);
    let sought = Sought {
        own,
        pruning,
        begin,
        latest,
        from,
        at,
    };
    gap_for(traffic, taken, marks, &sought)
}
