// From the bytes of a text to the whole answer: the reader, then the search.
ghost use Rattle.std.specs.Prelude.{◌≡◌, ◌*◌, min};
ghost use Rattle.model.specs.Flows.{per_flow};
ghost use Rattle.lines.specs.Form.{most_kept};
ghost use Rattle.planner.specs.Plan.{plan_of, plan_table};

use crate::numbering::{Plan, bare, with_packets};
use lines::MOST_KEPT;
use model::{PER_FLOW, Refusal, refused};
use reader::read;
use search::search;

// How many flow numbers are judged: those of all flows, or of the most that are kept.
fn judged(flows: usize) -> usize
    ensures { result ≡ per_flow * min flows most_kept }
{
    PER_FLOW * flows.min(MOST_KEPT)
}

// The plan of a text: any bytes and any lent table are answered; a refusal leaves the table untouched.
#[tactic(auto, using(crate::proofs::Planning::plan_malformed, crate::proofs::Planning::table_malformed))]
pub fn plan_of(text: &[u8], table: &mut [u32]) -> Plan
    ensures { (result ≡ plan_of text.now table.old) × (table.new ≡ plan_table text.now table.old) }
{
    match read(text) {
        Ok(input) => {
            let numbers = &input.numbers[..judged(input.flows)];
            let answer = search(input.mesh, input.pruning, input.threshold, numbers, table);
            with_packets(answer, input.mesh, numbers)
        }
        Err(why) => {
            let refusal = Refusal::from(why);
            bare(refused(refusal))
        }
    }
}
