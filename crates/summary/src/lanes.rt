// The edges of rules with one turn end inside, and with two: one code path for both parts of the table.
// `base` is a bare number with a clause: a struct of it and a transition would be no plainer, and be made again for each push.
ghost use Rattle.std.specs.Prelude.{◌⊎◌, ◌+◌, ◌*◌, ◌≤◌, ◌<◌, length};
ghost use Rattle.summary.specs.Cells.{Ready, plain, gone, lane, part, second, lane_by};
ghost use Rattle.summary.specs.Edges.{Relaxed, Row, Below};
ghost use Rattle.summary.specs.Shapes.{sizes};

use crate::cells::{REST, gone_at, lane_cell, plain_cell};
use crate::edges::{long_row, row};
use crate::transition::{Push, Transition};
use model::Right;

// The edges of a transition, in the part that starts at `base`. How many cells have fallen.
pub fn lane_rule(table: &mut [u16], base: usize, step: Transition) -> u64
    requires ready { Ready step.shape.controls (base + part step.shape.controls) table.old }
    requires base { base ≤ second step.shape.controls }
    ensures { Relaxed (lane_by (sizes step.shape) base step.from step.symbol step.to step.right) table.old table.new result
        × (result ≤ 4224) }
{
    match step.right {
        Right::Remove => 0,
        Right::Swap(a) => long_row(
            table,
            1,
            lane_cell(base, step.from, step.symbol, 0),
            REST,
            lane_cell(base, step.to, a.0 as usize, 0),
            step.shape.dests * 16,
        ),
        Right::Push(a, b) => {
            let below = lane_pushes(table, base, Push { step, a, b });
            below
                + long_row(
                    table,
                    1,
                    lane_cell(base, step.from, step.symbol, 4),
                    REST,
                    lane_cell(base, step.to, a.0 as usize, 4),
                    (step.shape.stays - 4) * 16,
                )
        }
    }
}

// The edges of a push whose first symbol goes, at each control q: the turn end is inside what comes of the second symbol,
// or inside what comes of the first.
fn lane_pushes(table: &mut [u16], base: usize, push: Push) -> u64
    requires ready { Ready push.step.shape.controls (base + part push.step.shape.controls) table.old }
    requires base { base ≤ second push.step.shape.controls }
    ensures { Relaxed (Below push.step.shape.controls (λ q e. Row 1 (lane base push.step.from push.step.symbol 0)
        (plain push.step.to push.a.0 (gone q)) (lane base q push.b.0 0) (push.step.shape.dests * 16) e
        ⊎ Below push.step.shape.dests (λ d. Row 1 (lane base push.step.from push.step.symbol d) (plain q push.b.0 d)
        (lane base push.step.to push.a.0 (gone q)) 16) e))
        table.old table.new result
        × (result ≤ 512 * push.step.shape.controls) }
{
    let step = push.step;
    let mut changes = 0;
    for q in 0..step.shape.controls {
        let after = long_row(
            table,
            1,
            lane_cell(base, step.from, step.symbol, 0),
            plain_cell(step.to, push.a.0 as usize, gone_at(q)),
            lane_cell(base, q, push.b.0 as usize, 0),
            step.shape.dests * 16,
        );
        let before = lane_pops(table, base, push, q);
        changes += after + before;
    }
    changes
}

// The same for one control, with the turn end inside what comes of the first symbol.
fn lane_pops(table: &mut [u16], base: usize, push: Push, q: usize) -> u64
    requires ready { Ready push.step.shape.controls (base + part push.step.shape.controls) table.old }
    requires base { base ≤ second push.step.shape.controls }
    requires control { q < push.step.shape.controls }
    ensures { Relaxed (Below push.step.shape.dests (λ d. Row 1 (lane base push.step.from push.step.symbol d) (plain q push.b.0 d)
        (lane base push.step.to push.a.0 (gone q)) 16)) table.old table.new result
        × (result ≤ 16 * push.step.shape.dests) }
{
    let step = push.step;
    let from = lane_cell(base, step.to, push.a.0 as usize, gone_at(q));
    let mut changes = 0;
    for d in 0..step.shape.dests {
        changes += row(
            table,
            1,
            lane_cell(base, step.from, step.symbol, d),
            plain_cell(q, push.b.0 as usize, d),
            from,
            16,
        );
    }
    changes
}
