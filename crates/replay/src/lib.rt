// The walk of a schedule: replay accepts exactly the legal ones.
#![tactic(auto)]

ghost use Rattle.std.specs.Prelude.{◌≡◌, ◌≤◌, length};
ghost use Rattle.model.specs.Refusals.{told};
ghost use Rattle.model.specs.Walk.{at_target};
ghost use Rattle.replay.specs.Replay.{replay_of};
ghost use Rattle.walk.specs.Stack.{config_of};

use depths::depths;
use model::{Depths, MOST_BYTES, Model, Refusal, Shared, need};
use walk::{STACK, Walk};

// What a schedule comes to: the last shared state, whether its run ends at the target, and the depths of its stacks.
#[derive(Clone, Copy, Debug, PartialEq, Eq)]
pub struct Replayed {
    pub shared: Shared,
    pub reached: bool,
    pub depths: Depths,
}

// The walk of a schedule from the model's start, once the model and the schedule's size are found good.
#[tactic(auto, using(crate::proofs::Answers::counted, crate::proofs::Answers::walked_legal), unfolding(crate::specs::Replay::replay_of, crate::specs::Replay::size_fits, model::specs::Results::first_of))]
pub fn replay(m: Model, schedule: &[u8]) -> Result<Replayed, Refusal>
    ensures { told result ≡ replay_of m schedule.now }
{
    model::check(m)?;
    need(schedule.len() % 2 == 0, Refusal::ScheduleSize)?;
    need(schedule.len() <= MOST_BYTES, Refusal::ScheduleSize)?;
    let mut a = [0u8; STACK];
    let mut b = [0u8; STACK];
    let start = walk::start(m, &mut a, &mut b);
    let w = walk::steps(start, m, schedule, &mut a, &mut b)?;
    Ok(Replayed {
        shared: w.shared,
        reached: at_target(m, w, &a, &b),
        depths: depths(m, schedule),
    })
}

// Whether a walk is at the target: with its shared state, and under the tops that are named.
fn at_target(m: Model, w: Walk, a: &[u8], b: &[u8]) -> bool
    requires { (w.a ≤ length a.now) × (w.b ≤ length b.now) }
    ensures { result ≡ at_target m w.shared.0 (config_of w a.now b.now).stacks }
{
    w.shared == m.target && walk::has_top(m.a.top, w.a, a) && walk::has_top(m.b.top, w.b, b)
}
