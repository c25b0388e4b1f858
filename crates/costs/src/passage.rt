// What the cost of one full line asks of its thread's table.
ghost use Rattle.std.specs.Prelude.{◌≤◌, ◌<◌};

use crate::line::joined;
use crate::table::Table;
use summary::cells::free_of;

// The passage of a thread that starts in a state with one symbol and ends N turn ends later at a destination of staying; a and b are
// the lanes of the turn ends.
#[derive(Clone, Copy)]
pub struct Passage<'a, const N: usize> {
    pub table: Table<'a>,
    pub from: usize,
    pub symbol: usize,
    pub to: usize,
    pub a: usize,
    pub b: usize,
    ghost few: { N ≤ 2 },
    ghost from_in: { from < table.controls },
    ghost symbol_in: { symbol < 17 },
    ghost to_in: { to < 12 },
    ghost a_in: { a < 16 },
    ghost b_in: { b < 16 },
}

impl<const N: usize> Passage<'_, N> {
    ghost use Rattle.std.specs.Prelude.{◌≡◌, ℕ, ◌+◌, ◌≤◌, ◌<◌};
    ghost use Rattle.model.specs.Tops.{Top};
    ghost use Rattle.summary.specs.Cells.{free_of, stays_of};
    ghost use Rattle.summary.specs.Control.{TurnEnd};
    ghost use Rattle.costs.specs.Cost.{control, over_states, pair_cost};
    ghost use Rattle.costs.specs.Lanes.{end_lane, LaneTo};
    ghost use Rattle.costs.specs.Passages.{Along};

    // Its cost.
    pub fn cost(self) -> u16
        ensures { (ends : ℕ → TurnEnd) (f : Top) (s : ℕ) → Along self.entry ends f s
            → result ≡ pair_cost ends self.entry.table.cells.now self.entry.table.controls N (control 0 self.entry.from)
            self.entry.symbol f (control N s) }
    {
        let mut best = self
            .table
            .entry(N, self.from, self.symbol, self.to, self.lane(N));
        for j in 0..N + 1 {
            best = self.over_states(j, best);
        }
        best
    }

    // The least of a count and of the runs whose symbol goes after j turn ends.
    fn over_states(self, j: usize, old: u16) -> u16
        requires { j ≤ N }
        ensures { (ends : ℕ → TurnEnd) (f : Top) (s : ℕ) → Along self.entry ends f s
            → result ≡ over_states self.entry.table.controls ends self.entry.table.cells.now (control 0 self.entry.from)
            self.entry.symbol f (control N s) j (free_of self.entry.table.controls) old }
    {
        let table = self.table;
        let before = self.lane(j);
        let last = self.lane(N);
        let mut best = old;
        for q in 0..free_of(table.controls) {
            let gone = table.entry(j, self.from, self.symbol, q, before);
            let rest = table.entry(N - j, q, 16, self.to, last);
            best = joined(gone, rest, best);
        }
        best
    }

    // The lane of the turn end before turn j.
    fn lane(self, j: usize) -> usize
        requires { j ≤ 2 }
        ensures along { (ends : ℕ → TurnEnd) → self.entry.a ≡ end_lane ends 0 → self.entry.b ≡ end_lane ends 1 → LaneTo ends j result }
        ensures low { result < 16 }
    {
        if j == 1 { self.a } else { self.b }
    }
}
