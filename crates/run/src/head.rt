// The head of a thread's configuration: its control and the top of its stack.
ghost use Rattle.std.specs.Prelude.{◌≡◌, ◌+◌, ◌≤◌, ◌<◌, set};
ghost use Rattle.run.specs.Levels.{entered_at, Removes, Goes};
ghost use Rattle.run.specs.Plan.{turn_in, ends_in, rule_in};

use crate::levels::Levels;
use crate::plan::Plan;
use model::{MOST_BYTES, Right};

// After `passed` of the thread's turn ends, at control number `control`, with `symbol` on top and `under` symbols under it. That it fits a
// plan is a clause (`HeadFits`) of the calls that need it, since a head does not hold its plan.
#[derive(Clone, Copy)]
pub struct Head {
    pub passed: usize,
    pub control: usize,
    pub symbol: usize,
    pub under: usize,
}

// What is left after a step: an empty stack, a head, or a head with another symbol right under it.
#[derive(Clone, Copy)]
pub enum Onward {
    Done,
    One(Head),
    Two(Head, usize),
}

impl Head {
    // What is left after a step by rule r.
    pub fn after_rule(self, plan: &Plan, levels: &Levels, r: usize) -> Onward
        requires { (r < plan.now.count) × (self.under < 4096) }
        ensures { Goes levels.now.symbols self (rule_in plan.now r) result }
    {
        let rule = plan.rule(r);
        let h = rule.after.0 as usize;
        match rule.right {
            Right::Remove => self.after_remove(levels, h),
            Right::Swap(a) => Onward::One(self.moved(h, a.0 as usize, self.under)),
            Right::Push(a, b) => Onward::Two(self.moved(h, a.0 as usize, self.under), b.0 as usize),
        }
    }

    // What is left after the top symbol has gone: the symbol below it is on top, if there is one.
    fn after_remove(self, levels: &Levels, h: usize) -> Onward
        requires { self.under < 4096 }
        ensures { Removes levels.now.symbols self h result }
    {
        if self.under == 0 {
            return Onward::Done;
        }
        Onward::One(self.moved(h, levels.symbols[self.under] as usize, self.under - 1))
    }

    // At control number h with another symbol on top, and so many under it.
    fn moved(self, h: usize, symbol: usize, under: usize) -> Head
        ensures { result ≡ record { passed = self.passed; control = h; symbol = symbol; under = under } }
    {
        Head {
            control: h,
            symbol,
            under,
            ..self
        }
    }

    // The head after the end of the turn.
    pub fn next_turn(self, plan: &Plan) -> Head
        requires { self.passed < 2 }
        ensures { result ≡ entered_at self (ends_in plan.now self.passed).enter }
    {
        Head {
            passed: self.passed + 1,
            control: plan.ends[self.passed].enter,
            ..self
        }
    }
}

// Writes the two bytes of a step at place `at`: the number of the thread's own turn j, and that of rule r. The range of j is that of a
// head's `passed`, and the store is the whole one, as in the writers' contracts.
pub fn put_step(plan: &Plan, j: usize, r: usize, out: &mut [u8; MOST_BYTES], at: usize)
    requires { (j ≤ 2) × (r < 64) × (at + 2 ≤ 8190) }
    ensures { out.new ≡ set (set out.old at (turn_in plan.now j)) (at + 1) r }
{
    out[at] = plan.turn(j) as u8;
    out[at + 1] = r as u8;
}
