// The packets of a model as the printer wants them: an answer with the flow and k of each packet.
ghost use Rattle.std.specs.Prelude.{◌≡◌, []};
ghost use Rattle.basics.specs.Lists.{tabulate, padded};
ghost use Rattle.arrays.specs.Arrays.{packet_in};
ghost use Rattle.printer.specs.ByLine.{lines_of, lines_left};
ghost use Rattle.planner.specs.Numbered.{packets_for, plan_for, Turned};

use arrays::{Model, model_of};
use model::{Answer, Mesh};
use printer::{Lines, Output};
use refusals::refusal;

// The answer, and for 0 and 13 the flow and k of each packet; what follows them is 0.
// Kept: two arrays, since `put_piece` (docs/PROMISES.md) answers for two slices of any two lengths; one slice of pairs is narrower.
#[derive(Clone, Copy)]
pub struct Plan {
    pub answer: Answer,
    pub flow: [u16; 1024],
    pub turn: [u16; 1024],
}

impl Plan {
    // The lines of the plan's text, with the table that was lent.
    pub fn lines<'a>(&'a self, table: &'a [u32]) -> Lines<'a>
        ensures { lines_left result ≡ lines_of self.now.answer table.now self.now.flow self.now.turn }
    {
        Lines::new(Output {
            answer: self.answer,
            table,
            flows: &self.flow,
            turns: &self.turn,
        })
    }
}

// The turn of each packet; what follows them is 0.
fn turns(model: &Model) -> [u16; 1024]
    requires { Turned model.now.flows model.now.packets }
    ensures { result ≡ padded 1024 0 (tabulate (λ p. (packet_in model.now.flows model.now.packets p).turn) 0 model.now.packets.count) }
{
    let n = model.packets.count;
    let mut all = [0u16; 1024];
    for (p, turn) in all[..n].iter_mut().enumerate() {
        let packet = model.packets.all[p];
        let period = packet.flow_among(&model.flows.all).period;
        *turn = (packet.release / period) as u16;
    }
    all
}

// The plan of an answer without packets.
#[tactic(auto, unfolding(crate::specs::Numbered::plan_for, crate::specs::Numbered::array_of, basics::specs::Lists::padded))]
pub fn bare(answer: Answer) -> Plan
    ensures { result ≡ plan_for answer [] }
{
    Plan {
        answer,
        flow: [0; 1024],
        turn: [0; 1024],
    }
}

// The plan of an answer with the packets of its model.
#[tactic(auto, using(refusals::proofs::Accepted::accepted_fair, crate::proofs::Turning::model_turned, crate::proofs::Turning::plan_refused, crate::proofs::Turning::is_accepted, crate::proofs::Turning::plan_built))]
pub fn with_packets(answer: Answer, mesh: Mesh, numbers: &[u32]) -> Plan
    ensures { result ≡ plan_for answer (packets_for mesh numbers.now) }
{
    if refusal(mesh, Ok(()), numbers).is_err() {
        return bare(answer);
    }
    let m = model_of(mesh, numbers);
    let flow = m.packets.flow_numbers();
    let turn = turns(&m);
    Plan { answer, flow, turn }
}
