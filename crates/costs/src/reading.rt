// The costs of full lines, read off a thread's solved table.
ghost use Rattle.std.specs.Prelude.{◌≡◌, ◌≤◌, length};
ghost use Rattle.summary.specs.Cells.{size};

use crate::LINES;
use crate::parts::{Line, turn_of};
use crate::passage::Passage;
use crate::side::Side;
use crate::table::Table;
use model::Top;
use summary::stays_of;

// A thread's side with N turn ends, and the cells of its table. N is known when this is compiled: so it is known how many parts of the table
// a line reads, and which, and nothing is left of the choice.
#[derive(Clone, Copy)]
pub struct Reading<'a, const N: usize> {
    pub side: &'a Side,
    pub cells: &'a [u16],
    ghost ends: { side.now.n ≡ N },
    ghost room: { size side.now.system.shape.controls ≤ length cells.now },
}

impl<const N: usize> Reading<'_, N> {
    ghost use Rattle.std.specs.Prelude.{◌≡◌, ℕ, None, length};
    ghost use Rattle.costs.specs.Cost.{WhereNamed};
    ghost use Rattle.costs.specs.Lanes.{full_lines, Value, FirstLanes, cost_of, ReadOff, SliceOff};

    // The cost of the full line whose value is v, to a top.
    pub fn line_cost(self, top: Top, v: usize) -> u16
        requires { Value self.side.now v }
        ensures { result ≡ cost_of self.entry.cells.now self.entry.side.now top v }
    {
        let side = self.side;
        let line = Line {
            g: side.system.g,
            len: 2 * N + 2,
            value: v,
        };
        let passage = Passage::<N> {
            table: Table {
                cells: self.cells,
                controls: side.system.shape.controls,
            },
            from: line.first_state(side.id, side.start),
            symbol: side.system.th.first.0 as usize,
            to: stays_of(top) + line.state(turn_of(side.id, N)),
            a: line.lane(side.id, 0),
            b: line.lane(side.id, 1),
        };
        passage.cost()
    }

    // The costs of all full lines: to any top, and to the named one.
    pub fn fill(self, costs: &mut [u16], named: &mut [u16])
        requires costs { length costs.old ≡ full_lines }
        requires named { WhereNamed self.side.now.system.top (λ f. length named.old ≡ full_lines) }
        ensures any { ReadOff self.entry.cells.now self.entry.side.now costs.new None }
        ensures named { WhereNamed self.entry.side.now.system.top (ReadOff self.entry.cells.now self.entry.side.now named.new) }
    {
        self.fill_all(costs, None);
        match self.side.system.top {
            None => {}
            Some(s) => self.fill_all(named, Some(s)),
        }
    }

    // The costs of all full lines, to a top.
    fn fill_all(self, costs: &mut [u16], top: Top)
        requires { length costs.old ≡ full_lines }
        ensures { ReadOff self.entry.cells.now self.entry.side.now costs.new top }
    {
        for v in 0..self.side.lines() {
            costs[v] = self.line_cost(top, v);
        }
    }

    // The same as `fill`, of the full lines whose first turn end has a lane; the others keep their costs.
    pub fn fill_slice(
        self,
        costs: &mut [u16],
        named: &mut [u16],
        lanes: &[usize; LINES],
        lane: usize,
    )
        requires costs { length costs.old ≡ full_lines }
        requires named { WhereNamed self.side.now.system.top (λ f. length named.old ≡ full_lines) }
        requires lanes { FirstLanes self.side.now lanes.now }
        ensures any { SliceOff self.entry.cells.now self.entry.side.now lane costs.old costs.new None }
        ensures named { WhereNamed self.entry.side.now.system.top
            (SliceOff self.entry.cells.now self.entry.side.now lane named.old named.new) }
    {
        self.slice_to(costs, None, lanes, lane);
        match self.side.system.top {
            None => {}
            Some(s) => self.slice_to(named, Some(s), lanes, lane),
        }
    }

    // The costs of such lines, to a top.
    fn slice_to(self, costs: &mut [u16], top: Top, lanes: &[usize; LINES], lane: usize)
        requires costs { length costs.old ≡ full_lines }
        requires lanes { FirstLanes self.side.now lanes.now }
        ensures { SliceOff self.entry.cells.now self.entry.side.now lane costs.old costs.new top }
    {
        for v in 0..self.side.lines() {
            if lanes[v] == lane {
                costs[v] = self.line_cost(top, v);
            }
        }
    }
}
