// Tight steps: those after which one step fewer is left to the end.
ghost use Rattle.std.specs.Prelude.{ℕ, ◌≤◌, ◌<◌};
ghost use Rattle.model.specs.Fits.{RightFits};
ghost use Rattle.run.specs.Levels.{Tight, HeadFits, Decides, FirstTight};

use crate::course::Course;
use crate::head::Head;
use crate::levels::Levels;
use model::Rule;

// The first rule that is a tight step, if one is.
pub fn first_rule(course: &Course, levels: &Levels, head: Head, count: usize) -> Option<usize>
    requires fits { HeadFits course.now.plan head }
    requires low { (head.under < 4096) × (0 < count) }
    ensures { FirstTight course.now.exits course.now.plan levels.now.counts head count result }
{
    for r in 0..course.plan.count {
        if suits(course, levels, head, count, course.plan.rule(r)) {
            return Some(r);
        }
    }
    None
}

// Whether a rule is a tight step.
fn suits(course: &Course, levels: &Levels, head: Head, count: usize, rule: Rule) -> bool
    requires { (head.passed ≤ 2) × (head.under < 4096) × (0 < count) × (rule.after.0 < 8) × RightFits rule.right }
    ensures { Decides result (Tight course.now.exits levels.now.counts head count rule) }
{
    if rule.before.0 as usize != head.control % 4 || rule.symbol.0 as usize != head.symbol {
        return false;
    }
    let x = 8 * head.passed + rule.after.0 as usize;
    levels.after_step(course, head.under, x, rule.right) == count - 1
}
