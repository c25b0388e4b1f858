// Relaxing edges of a table: a cell falls to what two other cells offer it. Sixteen bits hold each sum before it is capped.
// A table is passed as its cells, and `Ready` is a clause and not the invariant of a struct that lends them: up to where the cells hold
// counts differs by the edges, and each row writes to them.
ghost use Rattle.std.specs.Prelude.{◌≡◌, ◌+◌, ◌≤◌};
ghost use Rattle.summary.specs.Edges.{best_of, Relaxed, Row, RowReady};
ghost use Rattle.summary.specs.Table.{cap, unreached};

use crate::CAP;

// The numbers of a row are parameters: a struct of the numbers would be taken apart again in each row, in the innermost loop. The cells that
// have fallen are counted in loops and no sums of closures, here and in the other modules: each closure would hold the table and promise
// `Relaxed` again.

// For each x below `count`: cell to + x is at most w more than cells a and b + x together. How many cells have fallen. Nothing in
// the loop branches, so the compiler does eight cells at once.
pub fn row(table: &mut [u16], w: u16, to: usize, a: usize, b: usize, count: usize) -> u64
    requires { RowReady w to a b count table.old }
    ensures { Relaxed (Row w to a b count) table.old table.new result × (result ≤ count) }
{
    let x = table[a];
    if CAP < x {
        return 0;
    }
    let wx = w + x;
    let mut changes: u16 = 0;
    for d in 0..count {
        let old = table[to + d];
        let new = better(wx, table[b + d], old);
        table[to + d] = new;
        changes += u16::from(new < old);
    }
    changes as u64
}

// The same, where the count is mostly the usual one: to the compiler that is a number, and a loop whose end it knows is faster.
pub fn usual_row(
    table: &mut [u16],
    w: u16,
    to: usize,
    a: usize,
    b: usize,
    count: usize,
    usual: usize,
) -> u64
    requires { RowReady w to a b count table.old }
    ensures { Relaxed (Row w to a b count) table.old table.new result × (result ≤ count) }
{
    if count == usual {
        return row(table, w, to, a, b, usual);
    }
    row(table, w, to, a, b, count)
}

// The same of a long row, in pieces. Before it does eight cells at once the compiler asks whether the two rows overlap, and it asks
// that for a whole loop around them: with this loop it is the one row and not those of all states. A row over itself changes
// nothing.
pub fn long_row(table: &mut [u16], w: u16, to: usize, a: usize, b: usize, count: usize) -> u64
    requires { RowReady w to a b count table.old }
    ensures { Relaxed (Row w to a b count) table.old table.new result × (result ≤ count) }
{
    if to == b {
        return 0;
    }
    let mut changes = 0;
    for d in (0..count).step_by(64) {
        changes += row(table, w, to + d, a, b + d, (count - d).min(64));
    }
    changes
}

// The lesser of a count and of what an edge offers, whose first part and weight are wx. What is not reached offers no less than
// itself.
fn better(wx: u16, y: u16, old: u16) -> u16
    requires { (wx ≤ cap + 1) × (y ≤ unreached) × (old ≤ unreached) }
    ensures { result ≡ best_of wx 0 y old }
{
    old.min(y.max((wx + y).min(CAP)))
}
