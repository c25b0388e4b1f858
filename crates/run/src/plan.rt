// A plan: what the writers need of a thread and of its line. They take it by reference, where a thread by value would be copied at each
// step.
ghost use Rattle.std.specs.Prelude.{◌≡◌, ℕ, ◌≤◌, ◌<◌};
ghost use Rattle.model.specs.Fits.{ThreadFits};
ghost use Rattle.model.specs.Lines.{digits};
ghost use Rattle.costs.specs.Ends.{ends_of};
ghost use Rattle.run.specs.Marked.{marked_at, marked_by, marked_rule, InRange, in_range_prop};

use costs::parts::{Line, turn_of};
use costs::side::Side;
use model::{Rule, Shared, Thread, ThreadId, ZERO_RULE, is_held};

// A turn end of a thread: the state in which its turn is left, and that in which its next turn is entered.
#[derive(Clone, Copy)]
pub struct Switch {
    pub leave: usize,
    pub enter: usize,
}

// A thread along a line with G states and n turn ends of the thread, the first two of which stand here, be they of the line or beyond its
// end. Each rule leads to the number of a control: after a held step that is four above the state. There is no heap, so the `count` rules
// stand at the front of 64.
#[derive(Clone, Copy)]
pub struct Plan {
    pub id: ThreadId,
    pub states: usize,
    pub n: usize,
    pub ends: [Switch; 2],
    pub controls: usize,
    pub count: usize,
    pub rules: [Rule; 64],
    ghost in_range: { InRange states n controls count ends rules } by { in_range_prop states n controls count ends rules },
}

impl Plan {
    ghost use Rattle.costs.specs.Lanes.{LaneTo, Value, line_of};
    ghost use Rattle.run.specs.Plan.{ends_in, rule_in, turn_in, Planned};

    // The plan of a thread along the full line whose value is v. That v is the value of a line stays a clause, here and in the callers: a
    // `Line` keeps it, but the judge goes through all values, and each side makes its own line of one.
    pub fn along(side: &Side, v: usize) -> Plan
        requires { Value side.now v }
        ensures planned { Planned side.now.system.th side.now.id result }
        ensures states { result.states ≡ side.now.system.g }
        ensures turn_ends { result.n ≡ side.now.n }
        ensures ends { (j : ℕ) → j < side.now.n → ends_in result j ≡ ends_of side.now.id (line_of side.now v) j }
    {
        let line = side.line(v);
        Plan {
            id: side.id,
            states: side.system.g,
            n: side.n,
            ends: [switch_of(line, side.id, 0), switch_of(line, side.id, 1)],
            controls: side.system.shape.controls,
            count: side.system.th.count,
            rules: marked_rules(&side.system.th),
        }
    }

    // Rule number r.
    pub fn rule(&self, r: usize) -> Rule
        requires { r < 64 }
        ensures { result ≡ rule_in self.now r }
    {
        self.rules[r]
    }

    // The number of the thread's own turn j.
    pub fn turn(&self, j: usize) -> usize
        requires { j ≤ 2 }
        ensures { (result ≡ turn_in self.now j) × (result ≤ 5) }
    {
        turn_of(self.id, j)
    }

    // The lane of the turn end before the thread's own turn j. Before turn 0 there is none, and any number will do.
    pub fn lane_before(&self, j: usize) -> usize
        requires { j ≤ 2 }
        ensures { LaneTo (ends_in self.now) j result × (result < 16) }
    {
        if j == 0 {
            return 0;
        }
        let end = self.ends[j - 1];
        end.leave * 4 + end.enter
    }
}

// Turn end j of a thread along a line, with 0 for a state beyond the line's end.
fn switch_of(line: Line, id: ThreadId, j: usize) -> Switch
    requires { j ≤ 1 }
    ensures end { record { leave = result.leave; enter = result.enter } ≡ ends_of id (digits line.g line.len line.value) j }
    ensures low { (result.leave < line.g) × (result.enter < line.g) }
{
    let turn = turn_of(id, j);
    Switch {
        leave: line.state(turn),
        enter: line.state(turn + 1),
    }
}

// The rules of a thread as a plan has them.
fn marked_rules(th: &Thread) -> [Rule; 64]
    requires { ThreadFits 4 th.now }
    ensures { (r : ℕ) → r < th.now.count → marked_at result r ≡ marked_rule th.now r }
{
    let mut rules = [ZERO_RULE; 64];
    for r in 0..th.count {
        rules[r] = marked(th.rules[r], is_held(th.held, r));
    }
    rules
}

// A rule as a plan has it: after a held step the control is four above the state.
fn marked(rule: Rule, held: bool) -> Rule
    requires { rule.after.0 < 4 }
    ensures { result ≡ marked_by rule held }
{
    let above = if held { 4 } else { 0 };
    Rule {
        after: Shared(above + rule.after.0),
        ..rule
    }
}
