// The foot line, and how many turns have a step.
ghost use Rattle.std.specs.Prelude.{not, ◌≡◌, ◌+◌, ◌/◌, ◌≤◌, ◌<◌, length};
ghost use Rattle.model.specs.Schedules.{steps_of, step_at, steps_from};
ghost use Rattle.page.specs.Page.{step_in, turns_in, average, foot_line};
ghost use Rattle.page.specs.Parts.{FootFits, Rises};
ghost use Rattle.writer.specs.Output.{Appends, HasRoom};

use crate::line::put_column;
use writer::Output;

// Puts the foot line of so many steps, which are made in so many turns.
#[tactic(auto, using(writer::proofs::Outputs::appended, crate::proofs::Widths::steps_fit, crate::proofs::Widths::turns_fit), unfolding(crate::specs::Page::foot_line))]
pub fn put_foot(out: &mut Output, steps: usize, turns: usize)
    requires fits { FootFits steps turns }
    requires room { HasRoom out.old (foot_line steps turns) }
    ensures { Appends out.old out.new (foot_line steps turns) }
{
    put_column(out, 4, steps as u64);
    put_column(out, 1, turns as u64);
    put_average(out, steps, turns);
    out.repeat(b' ', 58);
    out.byte(b'\n');
}

// Puts the steps divided by the turns, whole part and remainder.
fn put_average(out: &mut Output, steps: usize, turns: usize)
    requires fits { FootFits steps turns }
    requires room { HasRoom out.old (average steps turns) }
    ensures { Appends out.old out.new (average steps turns) }
{
    if steps == 0 {
        out.repeat(b' ', 7);
    } else {
        put_column(out, 4, (steps / turns) as u64);
        put_column(out, 1, (steps % turns) as u64);
    }
}

// How many turns of a schedule have a step.
pub fn turns(schedule: &[u8]) -> usize
    requires { Rises 0 (steps_of schedule.now) }
    ensures { result ≡ turns_in (steps_of schedule.now) }
{
    let mut count = 0;
    for i in 0..schedule.len() / 2 {
        count += usize::from(ends_turn(schedule, i));
    }
    count
}

// Whether the step at place i is the last of its turn. Since turn numbers never fall, the next step tells.
fn ends_turn(schedule: &[u8], i: usize) -> bool
    requires place { i < length schedule.now / 2 }
    requires rises { Rises 0 (steps_of schedule.now) }
    ensures { result ≡ not (step_in (step_at schedule.now i).turn (steps_from schedule.now (i + 1))) }
{
    let next = i + 1;
    next == schedule.len() / 2 || schedule[2 * next] != schedule[2 * i]
}
