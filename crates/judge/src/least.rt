// The least schedule to the target: the first one over all full lines along which it is shortest.
ghost use Rattle.std.specs.Prelude.{true, ◌≡◌, ◌+◌, ◌*◌, ◌%◌, ◌^◌, ◌≤◌, ◌<◌, None, length};
ghost use Rattle.std.specs.Option.{is_some};
ghost use Rattle.model.specs.First.{LeastSchedule};
ghost use Rattle.model.specs.Schedules.{Stored};
ghost use Rattle.model.specs.Valid.{Valid};
ghost use Rattle.model.specs.Verdict.{found, Judged};
ghost use Rattle.costs.specs.Cost.{TargetCosts};
ghost use Rattle.costs.specs.Lanes.{full_lines};
ghost use Rattle.witness.specs.Solves.{Solves, SolvesIfLine};
ghost use Rattle.judge.specs.Least.{Adds};

use crate::Instance;
use crate::compare::comes_before;
use costs::parts::power;
use draw::Costs;
use model::{MOST_BYTES, Model};
use run::levels::Levels;

// What is asked of each line: the least schedule of so many steps to the target, by both threads' costs of the `count` full lines. That
// the costs and the steps are right stands in clauses: it says that there are runs, and a ghost field holds propositions alone.
#[derive(Drop)]
struct Search<'a> {
    m: Model,
    steps: usize,
    costs: Costs<'a>,
    count: usize,
    ghost valid: { Valid m },
    ghost some: { 1 ≤ m.g },
    ghost all: { count ≡ m.g ^ (2 * m.k) },
    ghost few: { count ≤ full_lines },
}

impl<const N: usize> Instance<N> {
    // Writes the least schedule to the target, where a shortest one has so many steps, by both threads' costs.
    #[tactic(auto, using(draw::proofs::Refusals::in_range))]
    pub fn least(&self, steps: usize, costs: Costs, schedule: &mut [u8; MOST_BYTES])
        requires costs { TargetCosts self.now.m costs.a.now costs.b.now }
        requires judged { Judged self.now.m (found steps) }
        ensures { Stored (LeastSchedule self.now.m steps) steps 0 schedule.old schedule.new }
    {
        let mut first = [0u16; N];
        let mut second = [0u16; N];
        witness::prepare(self.m, &mut first, &mut second);
        let mut levels = Levels::new();
        let search = Search {
            m: self.m,
            steps,
            costs,
            count: power(self.m.g as usize, 2 * self.m.k as usize),
        };
        search.over_lines(&mut first, &mut second, &mut levels, schedule);
    }
}

// The two tables and the levels are lent to each call beside `self`: a struct that lends them would promise in each call that its `&mut`
// are still the caller's.
impl Search<'_> {
    // The least schedule over all lines, with the tables solved for what all lines share.
    fn over_lines(
        &self,
        first: &mut [u16],
        second: &mut [u16],
        levels: &mut Levels,
        schedule: &mut [u8; MOST_BYTES],
    )
        requires tables { Solves self.now.m None first.old second.old }
        requires costs { TargetCosts self.now.m self.now.costs.a.now self.now.costs.b.now }
        requires judged { Judged self.now.m (found self.now.steps) }
        ensures { Stored (LeastSchedule self.now.m self.now.steps) self.now.steps 0 schedule.old schedule.new }
    {
        let mut fresh = [0u8; MOST_BYTES];
        let mut last = None;
        for v in 0..self.count {
            last = self.with_line(v, last, first, second, levels, &mut fresh, schedule);
        }
    }

    // The least schedule over the lines up to v, from that over those before it. Only a line to the target whose two threads' least steps
    // add up to those of a shortest schedule has one of that length. `last` is the last such line, if there was one; so is the answer.
    // The clauses ask no more of `last` than `write` does: it may be any number. Where the tables are solved for a line as `last`, or for none,
    // they are so for the answer (`solved`).
    fn with_line(
        &self,
        v: usize,
        last: Option<usize>,
        first: &mut [u16],
        second: &mut [u16],
        levels: &mut Levels,
        fresh: &mut [u8; MOST_BYTES],
        schedule: &mut [u8; MOST_BYTES],
    ) -> Option<usize>
        requires line { v < self.now.count }
        requires tables { SolvesIfLine self.now.m last first.old second.old }
        requires costs { TargetCosts self.now.m self.now.costs.a.now self.now.costs.b.now }
        requires judged { Judged self.now.m (found self.now.steps) }
        ensures adds { Adds self.now.m self.now.steps v schedule.old schedule.new (is_some last) (is_some result) }
        ensures tables { SolvesIfLine self.now.m result first.new second.new }
        ensures solved { Solves self.now.m last first.old second.old → Solves self.now.m result first.new second.new }
    {
        let x = self.costs.a[v];
        let y = self.costs.b[v];
        if v % self.m.g as usize != self.m.target.0 as usize
            || x as usize + y as usize != self.steps
        {
            return last;
        }
        if last.is_none() {
            witness::write(self.m, v, x, y, last, first, second, levels, schedule);
            return Some(v);
        }
        // the line's first schedule is kept where it comes before the one in the store
        witness::write(self.m, v, x, y, last, first, second, levels, fresh);
        if comes_before(fresh, schedule, self.steps) {
            let end = 2 * self.steps;
            schedule[..end].copy_from_slice(&fresh[..end]);
        }
        Some(v)
    }
}
