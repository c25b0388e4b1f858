// The page of a schedule, for people to look at: a line for each step, and a foot line. Its text is defined in specs/.
#![tactic(auto)]

ghost use Rattle.std.specs.Prelude.{◌≡◌, ◌+◌, ◌*◌, ◌/◌, ◌≤◌, ◌<◌, length};
ghost use Rattle.model.specs.Refusals.{told};
ghost use Rattle.model.specs.Schedules.{steps_of};
ghost use Rattle.page.specs.Answer.{paged_of, page_store};
ghost use Rattle.page.specs.Page.{page_lines, page_of};
ghost use Rattle.page.specs.Parts.{Pageable};
ghost use Rattle.walk.specs.Stack.{config_of, Room};
ghost use Rattle.writer.specs.Output.{Appends};

use model::{Model, Refusal};
use walk::{STACK, Walk};
use writer::Output;

mod foot;
mod line;

// The bytes of a line: 72 characters and the line's end.
const LINE: usize = 73;

// Puts the page of a schedule at the front of the store, which stays as it was where the call refuses: how long the page is.
pub fn page(m: Model, schedule: &[u8], store: &mut [u8]) -> Result<usize, Refusal>
    ensures answer { told result ≡ paged_of m schedule.now (length store.old) }
    ensures stored { store.new ≡ page_store m schedule.now store.old }
{
    replay::replay(m, schedule)?;
    let size = LINE * (schedule.len() / 2 + 1);
    if store.len() < size {
        return Err(Refusal::Store);
    }
    let mut out = Output::new(store);
    put_page(&mut out, m, schedule);
    Ok(out.at)
}

// Puts a page into an output that has room for it.
fn put_page(out: &mut Output, m: Model, schedule: &[u8])
    requires pageable { Pageable m schedule.now }
    requires room { out.old.at + 73 * (length schedule.now / 2 + 1) ≤ length out.old.store.now }
    ensures { Appends out.old out.new (page_of m (steps_of schedule.now)) }
{
    let mut a = [0u8; STACK];
    let mut b = [0u8; STACK];
    let start = walk::start(m, &mut a, &mut b);
    put_steps(out, start, m, schedule, &mut a, &mut b);
    foot::put_foot(out, schedule.len() / 2, foot::turns(schedule));
}

// Puts a line for each step that is made.
fn put_steps(out: &mut Output, start: Walk, m: Model, schedule: &[u8], a: &mut [u8], b: &mut [u8])
    requires pageable { Pageable m schedule.now }
    requires stacks { Room (length schedule.now / 2) start a.old b.old }
    requires room { out.old.at + 73 * (length schedule.now / 2) ≤ length out.old.store.now }
    ensures lines { Appends out.old out.new
        (page_lines m 1 (config_of start a.old b.old) (steps_of schedule.now)) }
    ensures low { out.new.at ≤ out.old.at + 73 * (length schedule.now / 2) }
{
    let mut w = start;
    for i in 0..schedule.len() / 2 {
        let from = 2 * i;
        let to = from + 2;
        let Ok(next) = walk::run(w, m, &schedule[from..to], a, b) else {
            return;
        };
        line::put_step(out, i + 1, schedule[from], schedule[from + 1], next, a, b);
        w = next;
    }
}
