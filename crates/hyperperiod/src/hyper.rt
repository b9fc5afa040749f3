// The hyper-period: the greatest common divisor by recursion, folded to the least common multiple of all periods.
ghost use Rattle.std.specs.Prelude.{◌≡◌, ◌<◌};
ghost use Rattle.hyperperiod.specs.Divisor.{gcd_of};
ghost use Rattle.hyperperiod.specs.Hyper.{hyper_within, Periods};

// The largest hyper-period that is not refused.
pub const MOST: u32 = 16_777_216;

// The greatest common divisor; the remainder falls.
pub fn gcd(a: u32, b: u32) -> u32
    ensures { result ≡ gcd_of a b }
{
    let none_left = b == 0;
    if none_left { a } else { gcd(b, a % b) }
}

// The least common multiple of the periods, each 1 to the limit, or none above the limit. It stops where a multiple passes the limit.
pub fn hyper_period(periods: &[u32]) -> Option<u32>
    requires { Periods periods.now }
    ensures { result ≡ hyper_within periods.now }
{
    let mut h: u32 = 1;
    for &t in periods {
        let next = (h / gcd(h, t)).checked_mul(t)?;
        if MOST < next {
            return None;
        }
        h = next;
    }
    Some(h)
}
