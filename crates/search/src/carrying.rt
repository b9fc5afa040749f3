// The passes over a model.
ghost use Rattle.std.specs.Prelude.{◌≡◌, ℕ, ◌<◌, ◌≤◌, length};
ghost use Rattle.passes.specs.Search.{found_of};
ghost use Rattle.load.specs.Entries.{nth_flow};
ghost use Rattle.arrays.specs.Arrays.{packets_read};
ghost use Rattle.search.specs.Answering.{search_of};
ghost use Rattle.search.specs.Modelled.{Modelled};

use crate::twinning::backs_of;
use arrays::Model;
use keys::slacks;
use load::{FlowEntry, Traffic};
use order::by_flow;
use passes::{Outcome, Settings, rounds};

// The longest of the occupancies: none is above it.
fn longest_of(flows: &[FlowEntry; 64]) -> u32
    ensures { (g : ℕ) → g < 64 → (nth_flow flows.now g).occupancy ≤ result }
{
    flows.iter().map(|flow| flow.occupancy).max().unwrap_or(0)
}

// The passes over a model that is not refused, from its packets in order of least slack.
pub fn run(model: Model, settings: Settings) -> Outcome
    requires { Modelled model settings.pruning settings.threshold }
    ensures { (found_of model.packets.count result ≡ search_of (packets_read model) settings.pruning settings.threshold) × (length result.times ≡ 1024) }
{
    let key = slacks(model);
    let list = by_flow(
        &key,
        model.flows.count,
        &model.packets.flow_numbers(),
        model.packets.count,
    );
    let flows = model.flows.all;
    let traffic = Traffic {
        count: model.packets.count,
        packets: model.packets.all,
        flows,
        longest: longest_of(&flows),
        back: backs_of(&flows, model.hyper),
    };
    rounds(list, &traffic, settings)
}
