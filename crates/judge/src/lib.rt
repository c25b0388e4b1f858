// The verdict on a model, over runs of any length and depth.
#![tactic(auto)]

ghost use Rattle.std.specs.Prelude.{◌≡◌, ◌*◌, ◌^◌, ◌≤◌, length, replicate};
ghost use Rattle.model.specs.Tables.{bytes_for, LineTable};
ghost use Rattle.model.specs.declared.Symbol.{Symbol};
ghost use Rattle.model.specs.Valid.{Valid};
ghost use Rattle.costs.specs.Cost.{TargetCosts};
ghost use Rattle.summary.specs.Cells.{size};
ghost use Rattle.costs.specs.Lanes.{TableFor};
ghost use Rattle.judge.specs.Answer.{refusal_of, Answers, LeavesLines, LeavesSchedule, TrueOf, Shows};

mod choose;
mod compare;
mod least;

use crate::choose::choose;
use costs::LINES;
use depths::depths;
use draw::Costs;
use model::{Depths, MOST_BYTES, Model, Refusal, Top};
use summary::CAP;
use summary::cells::{SIZE, SMALL};

// The most bytes that a line table has, a bit for each line: no model has more than 5,460 lines.
pub const MOST_TABLE: usize = 683;

// What runs of at most K rounds come to: none reaches the target; some do, each with more steps than a schedule may have; or a shortest
// one has so many steps, and the stacks get so deep in the least of these.
#[derive(Clone, Copy, Debug, PartialEq, Eq)]
pub enum Verdict {
    Clear,
    Long,
    Found(u64, Depths),
}

// Whether runs of at most K rounds reach the target. Fills the line store, and writes the least of the shortest schedules where it is
// Found. Where no rule is held the smaller tables will do.
#[tactic(auto, using(crate::proofs::Answers::checks, crate::proofs::Answers::unrefused, crate::proofs::Answers::valid_model, crate::proofs::Schedules::shown_whole, draw::proofs::Refusals::sound, draw::proofs::Refusals::roomy, costs::proofs::Rooms::small_room, costs::proofs::Rooms::large_room), unfolding(model::specs::Results::first_of))]
pub fn judge(m: Model, lines: &mut [u8], schedule: &mut [u8]) -> Result<Verdict, Refusal>
    ensures answer { Answers m (refusal_of m (length lines.old) (length schedule.old)) result }
    ensures table { LeavesLines m result lines.old lines.new }
    ensures witness { LeavesSchedule m result schedule.old schedule.new }
{
    draw::check_store(m, lines.len())?;
    let Some(schedule) = schedule.first_chunk_mut() else {
        return Err(Refusal::Store);
    };
    if costs::room::is_free(m) {
        return Ok(Instance::<SMALL> { m }.decide(lines, schedule));
    }
    Ok(Instance::<SIZE> { m }.decide(lines, schedule))
}

// A model in range, to be judged by searches in tables of N cells, which have room for it.
#[derive(Drop)]
struct Instance<const N: usize> {
    m: Model,
    ghost valid: { Valid m },
    ghost few: { N ≤ size 8 },
    ghost room: { TableFor m (replicate N 0) },
}

impl<const N: usize> Instance<N> {
    // The verdict, where the stores have room. The costs to any top give the line table, those to the tops that are named the verdict. It
    // is a call of its own, so that the stack holds the tables of one size alone.
    #[inline(never)]
    #[tactic(auto, using(draw::proofs::Refusals::in_range))]
    fn decide(&self, lines: &mut [u8], schedule: &mut [u8; MOST_BYTES]) -> Verdict
        requires { bytes_for self.now.m.g self.now.m.k ≤ length lines.old }
        ensures answer { TrueOf self.now.m result }
        ensures table { LineTable self.now.m lines.old lines.new }
        ensures witness { Shows self.now.m result schedule.old schedule.new }
    {
        let mut table = [0u16; N];
        let mut a = [0u16; LINES];
        let mut b = [0u16; LINES];
        let mut x = [0u16; LINES];
        let mut y = [0u16; LINES];
        costs::both(self.m, &mut table, &mut a, &mut b, &mut x, &mut y);
        draw::draw(self.m, lines, Costs { a: &a, b: &b });
        let target = Costs {
            a: to_top(self.m.a.top, &a, &x),
            b: to_top(self.m.b.top, &b, &y),
        };
        self.search(target, schedule)
    }

    // The verdict, by the costs to the target.
    #[tactic(auto, using(draw::proofs::Refusals::in_range, crate::proofs::Reaching::reaching, crate::proofs::Reaching::judged_clear, crate::proofs::Reaching::judged_long, crate::proofs::Reaching::judged_found, crate::proofs::Schedules::stored_legal, crate::proofs::Schedules::stored_witness))]
    fn search(&self, costs: Costs, schedule: &mut [u8; MOST_BYTES]) -> Verdict
        requires { TargetCosts self.now.m costs.a.now costs.b.now }
        ensures answer { TrueOf self.now.m result }
        ensures witness { Shows self.now.m result schedule.old schedule.new }
    {
        let m = &self.m;
        let best = choose(m.g as usize, m.k as usize, m.target.0 as usize, costs);
        if CAP < best {
            return Verdict::Clear;
        }
        if best == CAP {
            return Verdict::Long;
        }
        let count = best as usize;
        self.least(count, costs, schedule);
        let steps = best as u64;
        let end = 2 * count;
        Verdict::Found(steps, depths(self.m, &schedule[..end]))
    }
}

// The costs to what is asked of a top: those to any top where none is named, and else those to the named one. With the choice in place
// each thread's would be written twice, and nothing would say what was chosen.
fn to_top<'a>(top: Top, any: &'a [u16], named: &'a [u16]) -> &'a [u16]
    ensures none { top ≡ None → result.now ≡ any.entry.now }
    ensures some { (s : Symbol) → top ≡ Some s → result.now ≡ named.entry.now }
{
    if top.is_some() { named } else { any }
}
