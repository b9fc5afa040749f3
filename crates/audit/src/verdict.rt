// The check: its refusals in order, then the two walks.
ghost use Rattle.std.specs.Prelude.{◌≡◌};
ghost use Rattle.arrays.specs.Arrays.{InBounds};
ghost use Rattle.model.specs.Answers.{answer_by};
ghost use Rattle.audit.specs.Check.{check_of};
ghost use Rattle.audit.specs.Verdict.{verdict_in};

use arrays::{Model, model_of};
use model::{Answer, Mesh, Refusal};
use pairs::first_meeting;
use ranges::first_outside;
use refusals::refusal;

// The check of a table for a model that is not refused: 10, then 11 for all packets, then 12.
#[tactic(auto, using(basics::proofs::First::found_first, crate::proofs::Cases::pair_small, crate::proofs::Cases::timely_past), unfolding(crate::specs::Verdict::verdict_in, crate::specs::Check::verdict_by, crate::specs::Check::passed_with, refusals::specs::Refusals::refuse_if))]
fn verdict(model: Model, table: &[u32]) -> Result<Answer, Refusal>
    requires { InBounds model.flows model.packets }
    ensures { result ≡ verdict_in model table.now }
{
    let n = model.packets.count;
    if table.len() < n {
        return Err(Refusal::ShortTable);
    }
    if let Some(p) = first_outside(model.flows, model.packets, table) {
        return Err(Refusal::Outside { packet: p as u32 });
    }
    if let Some(pair) = first_meeting(model.flows, model.packets, table) {
        return Err(Refusal::Collision {
            packet: pair.a as u32,
            other: pair.b as u32,
        });
    }
    Ok(Answer {
        hyper: model.hyper,
        packets: n as u32,
        ..Answer::default()
    })
}

// The refusals of the model, then the check of the table.
#[tactic(auto, using(refusals::proofs::Accepted::accepted_fair, arrays::proofs::Reading::model_in_bounds, crate::proofs::Cases::verdict_is), unfolding(crate::specs::Check::check_of, crate::specs::Check::check_refusal))]
fn checked(mesh: Mesh, numbers: &[u32], table: &[u32]) -> Result<Answer, Refusal>
    ensures { answer_by result ≡ check_of mesh numbers.now table.now }
{
    refusal(mesh, Ok(()), numbers)?;
    verdict(model_of(mesh, numbers), table)
}

// The check of any table: any numbers, any list, any table. It writes nothing and reads no place past the packets.
pub fn check(mesh: Mesh, numbers: &[u32], table: &[u32]) -> Answer
    ensures { result ≡ check_of mesh numbers.now table.now }
{
    checked(mesh, numbers, table).unwrap_or_else(Answer::from)
}
