// How deep the stacks get in the run of a legal schedule. What a rule puts in the top's place says how much its stack grows, so heights
// tell it, and no stack is walked again.
#![tactic(auto)]

ghost use Rattle.std.specs.Prelude.{cond, ◌≡◌, ◌+◌, ◌-◌, ◌%◌, ◌≤◌, ◌<◌, max, eqb};
ghost use Rattle.model.specs.Depths.{depths_of};
ghost use Rattle.model.specs.Schedules.{steps_of};
ghost use Rattle.depths.specs.Heights.{size, climb, Legal};

use model::{Depths, Model, Right, Thread};

// The depths of both stacks: the greatest number of symbols that each holds, from the start on.
#[tactic(auto, using(crate::proofs::Climbing::legal_depths))]
pub fn depths(m: Model, schedule: &[u8]) -> Depths
    requires { Legal m (steps_of schedule.now) }
    ensures { result ≡ depths_of m (steps_of schedule.now) }
{
    let a = depth(m.a, 0, schedule);
    let b = depth(m.b, 1, schedule);
    Depths { a, b }
}

// The greatest height of one thread's stack. Its turns have this parity, 0 for A and 1 for B, and so a step's test is one
// comparison. The rule is read here, since to hand its thread to a function at each step would copy all its rules.
#[tactic(auto, using(crate::proofs::Climbing::counting_end))]
fn depth(t: Thread, odd: u8, schedule: &[u8]) -> usize
    ensures { result ≡ climb t odd 1 (steps_of schedule.now) }
{
    let mut height = 1;
    let mut most = 1;
    // by index, as are the other loops over a schedule's steps: in pairs of bytes, `as_chunks` gave no shorter proof, since each byte's place in a
    // pair has to be led back to its place in the schedule
    for i in 0..schedule.len() / 2 {
        // a number above 63, which no legal schedule has, is read as a lower one
        let chosen = t.rules[schedule[2 * i + 1] as usize % 64];
        height = after(chosen.right, odd, height, schedule[2 * i]);
        most = most.max(height);
    }
    most
}

// The height after a step by a rule with this right side. No branch goes by the rule: the processor would often guess it wrong.
fn after(x: Right, odd: u8, height: usize, turn: u8) -> usize
    requires { height < 18446744073709551614 }
    ensures { result ≡ cond (eqb (turn % 2) odd) (height + size x - 1) height }
{
    if turn % 2 != odd {
        return height;
    }
    (height + size_of(x)).saturating_sub(1)
}

// How many symbols a right side brings.
fn size_of(x: Right) -> usize
    ensures { (result ≡ size x) × (result ≤ 2) }
{
    match x {
        Right::Remove => 0,
        Right::Swap(_) => 1,
        Right::Push(_, _) => 2,
    }
}
