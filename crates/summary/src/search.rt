// The search: edges of a kind are relaxed for all rules of a thread, until nothing changes.
ghost use Rattle.summary.specs.Kinds.{KindFits};
ghost use Rattle.summary.specs.Props.{kind_prop};

use crate::Kind;
use crate::cells::{flags_of, number_of};
use crate::cross::cross_rule;
use crate::lanes::lane_rule;
use crate::plain::plain_rule;
use crate::pushdown::Pushdown;
use crate::transition::Transition;
use model::Rule;

// A search of one kind of edges of a pushdown system.
#[derive(Clone, Copy)]
pub struct Search<'a> {
    pub system: &'a Pushdown,
    pub kind: Kind,
    ghost kind_in: { KindFits system.now.shape.controls kind } by { kind_prop system.now.shape.controls kind },
}

impl Search<'_> {
    ghost use Rattle.std.specs.Prelude.{◌≡◌, ◌+◌, ◌*◌, ◌≤◌, ◌<◌};
    ghost use Rattle.summary.specs.Cells.{Ready, number_of, flags_of};
    ghost use Rattle.summary.specs.Edges.{Relaxed, Closes};
    ghost use Rattle.summary.specs.Kinds.{RuleEdges, RuleIn};
    ghost use Rattle.summary.specs.Searches.{controls, end, EdgesFrom, AllEdges};
    ghost use Rattle.summary.specs.Shapes.{sizes};

    // Passes until one changes nothing.
    pub fn settle(self, table: &mut [u16])
        requires { Ready (controls self) (end self) table.old }
        ensures { Closes (AllEdges self.entry) table.old table.new }
    {
        let mut changes = 1;
        // a `while`: how many passes it takes shows as they are made
        while changes != 0 {
            changes = self.pass(table);
        }
    }

    // The edges of all rules, once, from each control that has their before state. How many cells have fallen. The loop over rules
    // is inside, so that the compiler has nothing to prepare for a rule before its loop.
    pub fn pass(self, table: &mut [u16]) -> u64
        requires { Ready (controls self) (end self) table.old }
        ensures { Relaxed (AllEdges self.entry) table.old table.new result × (result ≤ 4224 * 64 * 2) }
    {
        let flags = flags_of(self.system.shape.controls);
        let mut changes = 0;
        for f in 0..flags {
            changes += self.pass_from(table, f);
        }
        changes
    }

    // The same from the controls with flag f.
    fn pass_from(self, table: &mut [u16], f: usize) -> u64
        requires ready { Ready (controls self) (end self) table.old }
        requires flag { f < flags_of (controls self) }
        ensures { Relaxed (EdgesFrom self.entry f) table.old table.new result × (result ≤ 4224 * 64) }
    {
        let th = &self.system.th;
        let marks = th.held;
        let mut changes = 0;
        for i in 0..th.count {
            let rule = th.rules[i];
            let held = model::is_held(marks, i);
            changes += self.relax(table, f, rule, held);
        }
        changes
    }

    // The edges of a rule from its control with flag f.
    fn relax(self, table: &mut [u16], f: usize, r: Rule, held: bool) -> u64
        requires ready { Ready (controls self) (end self) table.old }
        requires flag { f < flags_of (controls self) }
        requires rule { RuleIn (controls self) (number_of held r.after.0) r }
        ensures { Relaxed (RuleEdges self.entry.kind (sizes self.entry.system.now.shape) (4 * f + r.before.0) r.symbol.0
            (number_of held r.after.0) r.right)
            table.old table.new result
            × (result ≤ 4224) }
    {
        let step = Transition {
            shape: self.system.shape,
            from: 4 * f + r.before.0 as usize,
            symbol: r.symbol.0 as usize,
            to: number_of(held, r.after.0),
            right: r.right,
        };
        match self.kind {
            Kind::Plain => plain_rule(table, step),
            Kind::Lanes(base) => lane_rule(table, base, step),
            Kind::Cross(l) => cross_rule(table, l, step),
        }
    }
}
