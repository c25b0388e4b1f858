// A solved table, to read.
ghost use Rattle.std.specs.Prelude.{◌≤◌, length};
ghost use Rattle.summary.specs.Cells.{size};

use summary::cells::{first_of, lane_cell, plain_cell, second_of};

// The cells of a table of so many controls.
#[derive(Clone, Copy)]
pub struct Table<'a> {
    pub cells: &'a [u16],
    pub controls: usize,
    ghost few: { controls ≤ 8 },
    ghost room: { size controls ≤ length cells.now },
}

impl Table<'_> {
    ghost use Rattle.std.specs.Prelude.{◌≡◌, ◌≤◌, ◌<◌};
    ghost use Rattle.summary.specs.Edges.{cell};
    ghost use Rattle.costs.specs.Lanes.{cell_at};

    // The entry of a stretch from control p with `gap` turn ends inside; `lane` is that of the last of them.
    pub fn entry(self, gap: usize, p: usize, top: usize, d: usize, lane: usize) -> u16
        requires { (gap ≤ 2) × (p < self.controls) × (top < 17) × (d < 16) × (lane < 16) }
        ensures { result ≡ cell self.entry.cells.now (cell_at self.entry.controls gap p top d lane) }
    {
        match gap {
            0 => self.cells[plain_cell(p, top, d)],
            1 => self.cells[lane_cell(first_of(self.controls), p, top, d) + lane],
            _ => self.cells[lane_cell(second_of(self.controls), p, top, d) + lane],
        }
    }
}
