// The key of the list: the slack of each flow, which is that of its packets.
ghost use Rattle.std.specs.Prelude.{◌≡◌};
ghost use Rattle.keys.specs.Slack.{Keyed, slacks_of};

use arrays::Model;

// The slack of each flow, D − occupancy; 0 past them.
// Kept: a loop of its own beside `periods` of the model (u32): one `array::from_fn` for both was tried, and the check does not take apart
// what it ensures of a closure with an `if`.
pub fn slacks(model: Model) -> [u64; 64]
    requires { Keyed model }
    ensures { result ≡ slacks_of model }
{
    let n = model.flows.count;
    let flows = model.flows.all;
    let mut key = [0u64; 64];
    for (g, slack) in key[..n].iter_mut().enumerate() {
        let flow = &flows[g];
        let due = flow.due;
        *slack = u64::from(due - flow.occupancy);
    }
    key
}
