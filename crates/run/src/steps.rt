// One thread's steps along a line: its table is solved for the line's turn ends, its exits are read off it, and the writers go on from
// the thread's first symbol on an empty stack.
ghost use Rattle.std.specs.Prelude.{true, [], ◌∷◌, ◌≡◌, ◌≤◌};
ghost use Rattle.model.specs.First.{First};
ghost use Rattle.model.specs.Schedules.{most_steps, Stored};
ghost use Rattle.costs.specs.Cost.{RunAlong};
ghost use Rattle.costs.specs.Lanes.{Value, line_of};
ghost use Rattle.run.specs.Base.{SideBase, SideRoom, SideSolved};
ghost use Rattle.run.specs.Chosen.{ChosenFor, Prepared, Starts};
ghost use Rattle.run.specs.Exits.{Togo, Setting, Runs};
ghost use Rattle.run.specs.Levels.{from, HeadFits};

use crate::course::{Course, EXITS};
use crate::head::Head;
use crate::levels::Levels;
use crate::plan::Plan;
use crate::solve::for_line;
use crate::stretch::stretch;
use costs::parts::turn_of;
use costs::side::Side;
use model::MOST_BYTES;
use summary::{UNREACHED, stays_of};

// Where a thread starts along a line, and the destination of its end.
#[derive(Clone, Copy)]
pub struct Start {
    pub head: Head,
    pub dest: usize,
}

// Writes the first of a thread's shortest runs along the full line whose value is v, to its top: they have `count` steps. The table may be
// known to be solved for the line's first turn end.
pub fn steps(
    table: &mut [u16],
    side: &Side,
    v: usize,
    count: usize,
    known: bool,
    levels: &mut Levels,
    out: &mut [u8; MOST_BYTES],
)
    requires chosen { ChosenFor side.now v count }
    requires room { SideRoom side.now table.old }
    requires base { SideBase side.now table.old }
    requires known { known ≡ true → SideSolved side.now v table.old }
    ensures base { SideBase side.now table.new }
    ensures solved { SideSolved side.now v table.new }
    ensures steps { Stored (First (RunAlong side.now.system.th side.now.system.top side.now.id side.now.n side.now.start (line_of side.now v)) count)
        count 0 out.old out.new }
{
    let mut course = Course {
        plan: prepare(table, side, v, known),
        exits: [UNREACHED; EXITS],
    };
    let from = start_of(side, v);
    course.fill(table, from.dest);
    from_head(&course, levels, from.head, count, out);
}

// The plan of a thread along a line, and the table solved for the line's turn ends.
fn prepare(table: &mut [u16], side: &Side, v: usize, known: bool) -> Plan
    requires value { Value side.now v }
    requires room { SideRoom side.now table.old }
    requires base { SideBase side.now table.old }
    requires known { known ≡ true → SideSolved side.now v table.old }
    ensures base { SideBase side.now table.new }
    ensures solved { SideSolved side.now v table.new }
    ensures prepared { Prepared side.now v table.new result }
{
    let plan = Plan::along(side, v);
    if known {
        return plan;
    }
    for_line(table, side, plan.ends[0]);
    plan
}

// From the state in which the thread's first turn starts, to the end of its last turn with something on its stack, be it the
// floor, under a top that will do.
fn start_of(side: &Side, v: usize) -> Start
    requires { Value side.now v }
    ensures { Starts side.now v result }
{
    let line = side.line(v);
    let head = Head {
        passed: 0,
        control: line.first_state(side.id, side.start),
        symbol: side.system.th.first.0 as usize,
        under: 0,
    };
    Start {
        head,
        dest: stays_of(side.system.top) + line.state(turn_of(side.id, side.n)),
    }
}

// Writes the first of the shortest runs from a head with nothing under its symbol.
fn from_head(
    course: &Course,
    levels: &mut Levels,
    head: Head,
    count: usize,
    out: &mut [u8; MOST_BYTES],
)
    requires fits { HeadFits course.now.plan head }
    requires room { (head.under ≡ 0) × (count ≤ most_steps) }
    ensures { (w : Setting course.now.exits course.now.plan) → Togo (Runs w (from head) (head.symbol ∷ [])) count
        → Stored (First (Runs w (from head) (head.symbol ∷ [])) count) count 0 out.old out.new }
{
    levels.ground(course);
    let mut now = head;
    stretch(course, levels, &mut now, count, out, 0);
}
