// The table written, and what the answer says of it.
ghost use Rattle.std.specs.Prelude.{◌≡◌, not, ◌++◌, ◌≤◌, length, take, drop};
ghost use Rattle.basics.specs.First.{found};
ghost use Rattle.basics.specs.Sums.{count_of};
ghost use Rattle.packet.specs.Table.{placed};
ghost use Rattle.reports.specs.Reports.{report_of};

use model::Answer;
use packet::NO_TIME;
use passes::Outcome;

// How many of the packets are not placed.
fn skipped_in(times: &[u32]) -> u32
    requires { length times.now ≤ 1024 }
    ensures { result ≡ count_of (λ p. not (placed times.now p)) (length times.now) }
{
    times.iter().filter(|time| **time == NO_TIME).count() as u32
}

// The lowest packet that is not placed, or none.
fn lowest_in(times: &[u32]) -> Option<usize>
    ensures { result ≡ found (λ p. not (placed times.now p)) (length times.now) }
{
    times.iter().position(|time| *time == NO_TIME)
}

// Writes the table, and answers: 0 where every packet is placed, else 13 with the lowest that is not.
pub fn report(found: Outcome, hyper: u32, n: usize, table: &mut [u32]) -> Answer
    requires { (length found.times ≡ 1024) × (n ≤ 1024) × (n ≤ length table.old) }
    ensures { (result ≡ report_of found hyper n) × (table.new ≡ take n found.times ++ drop n table.old) }
{
    let times = &found.times[..n];
    table[..n].copy_from_slice(times);
    let skipped = skipped_in(times);
    // Kept: the numbers 0 and 13, which document 01 gives an answer, and `complete_search` and `ended_search` speak of.
    let (number, place) = match lowest_in(times) {
        None => (0, 0),
        Some(lowest) => (13, lowest as u32),
    };
    Answer {
        number,
        place,
        hyper,
        packets: n as u32,
        passes: found.passes,
        tries: found.tries,
        skipped,
        ..Answer::default()
    }
}
