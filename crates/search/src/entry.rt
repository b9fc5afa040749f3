// The search: refusals first, then the passes, then the table and the answer.
ghost use Rattle.std.specs.Prelude.{◌≡◌};
ghost use Rattle.model.specs.Answers.{answer_by};
ghost use Rattle.search.specs.Answering.{settings_refusal, answer_of, table_after};

use crate::carrying::run;
use arrays::model_of;
use limits::out_of_range;
use model::{Answer, Mesh, Refusal};
use passes::Settings;
use refusals::refusal;
use reports::report;

// 3: F outside 1 to 65,536 or G outside 1 to 16.
#[tactic(auto, unfolding(crate::specs::Answering::settings_refusal, crate::specs::Answering::bad_settings, refusals::specs::Refusals::refuse_if))]
fn refuse_settings(settings: Settings) -> Result<(), Refusal>
    ensures { result ≡ settings_refusal settings.pruning settings.threshold }
{
    if out_of_range(1, 65_536, settings.pruning) || out_of_range(1, 16, settings.threshold) {
        return Err(Refusal::BadSettings);
    }
    Ok(())
}

// The refusals in order, then the passes; a refusal writes nothing.
#[tactic(auto, using(crate::proofs::Entering::entry_fair, crate::proofs::Entering::model_packets), unfolding(crate::specs::Answering::answer_of, crate::specs::Answering::table_after, crate::specs::Answering::search_refusal, crate::specs::Answering::bad_table, refusals::specs::Refusals::refuse_if))]
fn found(
    mesh: Mesh,
    settings: Settings,
    numbers: &[u32],
    table: &mut [u32],
) -> Result<Answer, Refusal>
    ensures answered { answer_by result ≡ answer_of mesh settings.pruning settings.threshold numbers.now table.old }
    ensures written { table.new ≡ table_after mesh settings.pruning settings.threshold numbers.now table.old }
{
    refusal(mesh, refuse_settings(settings), numbers)?;
    let model = model_of(mesh, numbers);
    let hyper = model.hyper;
    let n = model.packets.count;
    if table.len() < n {
        return Err(Refusal::ShortTable);
    }
    let outcome = run(model, settings);
    Ok(report(outcome, hyper, n, table))
}

// The answer, with the table in the first packets places of the lent one; a refusal writes nothing.
pub fn search(
    mesh: Mesh,
    pruning: u32,
    threshold: u32,
    numbers: &[u32],
    table: &mut [u32],
) -> Answer
    ensures { (result ≡ answer_of mesh pruning threshold numbers.now table.old) × (table.new ≡ table_after mesh pruning threshold numbers.now table.old) }
{
    let settings = Settings { pruning, threshold };
    found(mesh, settings, numbers, table).unwrap_or_else(Answer::from)
}
