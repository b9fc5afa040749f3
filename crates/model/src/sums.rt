// The hyper-period and the number of packets.
ghost use Rattle.std.specs.Prelude.{◌≡◌, ◌≤◌};
ghost use Rattle.basics.specs.Lists.{padded};
ghost use Rattle.hyperperiod.specs.Hyper.{hyper_within, most};
ghost use Rattle.model.specs.Packets.{periods_of, hyper_in, packets_in};
ghost use Rattle.model.specs.Fair.{Timed};

use crate::flows::{flow_of, flows_in};
use hyperperiod::hyper_period;

// Kept: `Timed` stays a clause of hyper_in and packets_in (docs/PROMISES.md), which are lent any list that passed 4 to 6.

// All periods, flow after flow; what follows them is 0.
fn periods(numbers: &[u32]) -> [u32; 64]
    requires { Timed numbers.now }
    ensures { result ≡ padded 64 0 (periods_of numbers.now) }
{
    let n = flows_in(numbers);
    let mut all = [0u32; 64];
    for (f, period) in all[..n].iter_mut().enumerate() {
        *period = flow_of(numbers, f).period;
    }
    all
}

// The hyper-period, or none where it is above the limit.
pub fn hyper_in(numbers: &[u32]) -> Option<u32>
    requires { Timed numbers.now }
    ensures { result ≡ hyper_within (periods_of numbers.now) }
{
    let n = flows_in(numbers);
    let all = periods(numbers);
    hyper_period(&all[..n])
}

// How many packets there are in a hyper-period.
pub fn packets_in(numbers: &[u32], hyper: u32) -> u32
    requires { Timed numbers.now × (hyper ≡ hyper_in numbers.now) × (hyper ≤ most) }
    ensures { result ≡ packets_in numbers.now }
{
    let n = flows_in(numbers);
    let all = periods(numbers);
    let mut sum: u32 = 0;
    for &period in &all[..n] {
        sum += hyper / period;
    }
    sum
}
