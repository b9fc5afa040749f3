// The search's state; a packet takes a time, or is turned away; and a pass begins with nothing placed.
ghost use Rattle.std.specs.Prelude.{◌≡◌, ◌<◌};
ghost use Rattle.order.specs.Lists.{Room};
ghost use Rattle.kept.specs.Kept.{added};
ghost use Rattle.settling.specs.Settling.{nothing_taken, turned, turned_away, TurnsAway};

use kept::Taken;
use order::put_in;
use packet::NO_TIME;

// The search's own state, carried over its passes: the list is the order from base on, and the skipped packets stand before it; and the
// fail count of each packet.
// Kept: document 01 names the order list and its fail counts as arrays of 1,024 in this state; so where the list begins stands beside it.
#[derive(Clone, Copy)]
pub struct State {
    pub order: [u16; 1024],
    pub fails: [u8; 1024],
    pub base: usize,
}

// What follows for a packet that is turned away: a new pass begins, or it is skipped and the pass goes on.
#[derive(Clone, Copy, PartialEq, Eq, Debug)]
pub enum Turned {
    Again,
    Skipped,
}

impl State {
    // No time will do for a packet, which comes at a place of the order: its fail count rises and it goes to the front. Below the threshold
    // a new pass begins there; at the threshold the list begins after it, and it is skipped.
    pub fn turn_away(&mut self, at: usize, packet: u16, threshold: u32) -> Turned
        requires { TurnsAway self.old at packet }
        ensures { (self.new ≡ turned_away self.old at packet threshold) × (result ≡ turned self.old packet threshold) }
    {
        let p = packet as usize;
        let fail = self.fails[p] + 1;
        self.fails[p] = fail;
        put_in(&mut self.order, self.base, at, packet);
        if (fail as u32) < threshold {
            return Turned::Again;
        }
        self.base += 1;
        Turned::Skipped
    }
}

// A packet takes a time: it goes into its place of the table, and at a spot among the placed packets.
pub fn settle(taken: &mut Taken, spot: usize, packet: u16, time: u32)
    requires { Room taken.old.by spot taken.old.count × (packet < 1024) }
    ensures { taken.new ≡ added taken.old spot packet time }
{
    taken.times[packet as usize] = time;
    put_in(&mut taken.by, spot, taken.count, packet);
    taken.count += 1;
}

// Nothing is placed: no packet has a time.
// Kept: numbers and no Options of them, as `nothing_placed`, `placed_new`, `placed_other` (docs/PROMISES.md) are of tables of numbers.
#[tactic(auto, unfolding(crate::specs::Settling::nothing_taken))]
pub fn nothing_taken() -> Taken
    ensures { result ≡ nothing_taken }
{
    Taken {
        times: [NO_TIME; 1024],
        by: [0; 1024],
        count: 0,
    }
}
