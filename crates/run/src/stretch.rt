// The writers of steps. A pushed pair is two stretches, one after the other, so the stretch writer and the pair writer call each other, and
// the number of steps still to be written falls. Each call is the last thing that they do, and they take numbers and references, nothing
// that would have to stay in a frame: so none of them waits for another, and thousands of pushes nest nothing. A head by value would stay
// in the caller's frame. The store comes with the place of the next step, since the rest of it as a slice would have to be joined to its
// front in the contracts.
ghost use Rattle.std.specs.Prelude.{◌∷◌, ◌≡◌, ◌+◌, ◌*◌, ◌≤◌, ◌<◌};
ghost use Rattle.model.specs.First.{First};
ghost use Rattle.model.specs.Schedules.{most_bytes, most_steps, Stored};
ghost use Rattle.run.specs.Exits.{Setting, Runs};
ghost use Rattle.run.specs.Levels.{below, from, stack_of, HeadFits, Ready};

use crate::course::Course;
use crate::head::{Head, Onward, put_step};
use crate::levels::Levels;
use crate::tight::first_rule;
use model::MOST_BYTES;

// Writes the first of the shortest runs to the end from place `at` on; they have `count` steps.
#[cycle(pair_stretch)]
pub fn stretch(
    course: &Course,
    levels: &mut Levels,
    head: &mut Head,
    count: usize,
    out: &mut [u8; MOST_BYTES],
    at: usize,
)
    requires { (HeadFits course.now.plan head.old) × (head.old.under + count ≤ most_steps) × (at + 2 * count ≤ most_bytes) }
    ensures { (w : Setting course.now.exits course.now.plan)
        → Ready w levels.old.counts levels.old.symbols head.old (stack_of levels.old.symbols head.old) count
        → Stored (First (Runs w (from head.old) (stack_of levels.old.symbols head.old)) count) count at out.old out.new }
{
    if count == 0 {
        return;
    }
    let Some(r) = first_rule(course, levels, *head, count) else {
        // no step is tight, so the turn ends here
        if head.passed < course.plan.n {
            *head = head.next_turn(&course.plan);
            stretch(course, levels, head, count, out, at);
        }
        return;
    };
    put_step(&course.plan, head.passed, r, out, at);
    match head.after_rule(&course.plan, levels, r) {
        Onward::Done => {}
        Onward::One(next) => {
            *head = next;
            stretch(course, levels, head, count - 1, out, at + 2);
        }
        Onward::Two(next, second) => {
            *head = next;
            pair(course, levels, head, second, count - 1, out, at + 2);
        }
    }
}

// The same, where another symbol lies right under the top: its level is made, and the upper symbol's stretch goes on into its own.
#[cycle(pair_stretch)]
pub fn pair(
    course: &Course,
    levels: &mut Levels,
    head: &mut Head,
    second: usize,
    count: usize,
    out: &mut [u8; MOST_BYTES],
    at: usize,
)
    requires { (HeadFits course.now.plan head.old) × (second ≤ 16) × (head.old.under + 1 + count ≤ most_steps) × (at + 2 * count ≤ most_bytes) }
    ensures { (w : Setting course.now.exits course.now.plan)
        → Ready w levels.old.counts levels.old.symbols head.old (head.old.symbol ∷ second ∷ below levels.old.symbols head.old.under) count
        → Stored (First (Runs w (from head.old) (head.old.symbol ∷ second ∷ below levels.old.symbols head.old.under)) count) count at
        out.old out.new }
{
    levels.push(course, head.under, second, head.passed);
    head.under += 1;
    stretch(course, levels, head, count, out, at);
}
