// The exits of a thread along a line, filled from its table in the order of their addresses.
ghost use Rattle.std.specs.Prelude.{◌≡◌, ◌+◌, ◌*◌, ◌≤◌, ◌<◌, length};

use crate::course::{Course, EXITS};
use crate::plan::Plan;
use costs::table::Table;
use summary::cells::gone_at;

// What the exits are filled from: the thread's table, its plan, and the destination of its end.
#[derive(Clone, Copy)]
struct Source<'t, 'p> {
    table: Table<'t>,
    plan: &'p Plan,
    dest: usize,
    ghost same: { table.controls ≡ plan.now.controls },
    ghost low: { dest < 16 },
}

impl Course {
    ghost use Rattle.summary.specs.Cells.{size};
    ghost use Rattle.run.specs.Filled.{Filled, Fresh};

    // Fills the exits from the thread's table: for each control and symbol, the least steps until the symbol is gone at each control, and
    // the least to the destination of the end.
    pub fn fill(&mut self, table: &[u16], dest: usize)
        requires room { (size self.old.plan.controls ≤ length table.now) × (dest < 16) }
        requires fresh { Fresh self.old.exits }
        ensures filled { Filled table.now self.new.plan dest self.new.exits }
        ensures plan { self.new.plan ≡ self.old.plan }
    {
        let cells = Table {
            cells: table,
            controls: self.plan.controls,
        };
        let source = Source {
            table: cells,
            plan: &self.plan,
            dest,
        };
        source.fill(&mut self.exits);
    }
}

// Turn, control and symbol of a row stay three numbers: their ranges are the plan's, and each function adds one of them.
impl Source<'_, '_> {
    ghost use Rattle.run.specs.Exits.{row_of};
    ghost use Rattle.run.specs.Filled.{stretch_in, FilledTo, Extends, Filled, Fresh};

    // All exits.
    fn fill(self, exits: &mut [u16; EXITS])
        requires { Fresh exits.old }
        ensures { Filled self.entry.table.cells.now self.entry.plan.now self.entry.dest exits.new }
    {
        for j in 0..self.plan.n + 1 {
            self.fill_turn(exits, j);
        }
    }

    // The exits from the controls of turn j.
    fn fill_turn(self, exits: &mut [u16; EXITS], j: usize)
        requires turn { j ≤ self.plan.now.n }
        requires before { FilledTo self.table.cells.now self.plan.now self.dest (row_of (8 * j) 0) exits.old }
        ensures { FilledTo self.entry.table.cells.now self.entry.plan.now self.entry.dest (row_of (8 * (j + 1)) 0) exits.new }
    {
        for p in 0..self.plan.controls {
            self.fill_place(exits, j, p);
        }
    }

    // The exits from control p of turn j.
    fn fill_place(self, exits: &mut [u16; EXITS], j: usize, p: usize)
        requires place { (j ≤ self.plan.now.n) × (p < self.plan.now.controls) }
        requires before { FilledTo self.table.cells.now self.plan.now self.dest (row_of (8 * j + p) 0) exits.old }
        ensures { FilledTo self.entry.table.cells.now self.entry.plan.now self.entry.dest (row_of (8 * j + p) 17) exits.new }
    {
        for symbol in 0..17 {
            self.fill_row(exits, j, p, symbol);
        }
    }

    // The row of control p of turn j and a symbol.
    fn fill_row(self, exits: &mut [u16; EXITS], j: usize, p: usize, symbol: usize)
        requires row { (j ≤ self.plan.now.n) × (p < self.plan.now.controls) × (symbol ≤ 16) }
        requires before { FilledTo self.table.cells.now self.plan.now self.dest (row_of (8 * j + p) symbol) exits.old }
        ensures { FilledTo self.entry.table.cells.now self.entry.plan.now self.entry.dest (row_of (8 * j + p) (symbol + 1)) exits.new }
    {
        let n = self.plan.n;
        for k in j..n + 1 {
            self.fill_gone(exits, j, p, symbol, k);
        }
        exits[((8 * j + p) * 17 + symbol) * 25 + 24] = self.stretch(j, p, symbol, n, self.dest);
    }

    // The cells of such a row where the symbol is gone in turn k.
    fn fill_gone(self, exits: &mut [u16; EXITS], j: usize, p: usize, symbol: usize, k: usize)
        requires { (j ≤ k) × (k ≤ self.plan.now.n) × (p < self.plan.now.controls) × (symbol ≤ 16) }
        ensures { Extends self.entry.table.cells.now self.entry.plan.now (row_of (8 * j + p) symbol + 8 * k)
            (row_of (8 * j + p) symbol + 8 * (k + 1)) exits.old exits.new }
    {
        let at = ((8 * j + p) * 17 + symbol) * 25 + 8 * k;
        for q in 0..self.plan.controls {
            exits[at + q] = self.stretch(j, p, symbol, k, gone_at(q));
        }
    }

    // What the table has for the stretches from control p of turn j with a symbol on top to destination d of turn k.
    fn stretch(self, j: usize, p: usize, symbol: usize, k: usize, d: usize) -> u16
        requires { (j ≤ k) × (k ≤ self.plan.now.n) × (p < self.plan.now.controls) × (symbol ≤ 16) × (d < 16) }
        ensures { result ≡ stretch_in self.entry.table.cells.now self.entry.plan.now j p symbol k d }
    {
        self.table
            .entry(k - j, p, symbol, d, self.plan.lane_before(k))
    }
}
