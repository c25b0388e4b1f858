// The edges of pushes with one turn end inside what comes of the first symbol, and one inside what comes of the second.
ghost use Rattle.std.specs.Prelude.{◌+◌, ◌*◌, ◌≤◌, ◌<◌, length};
ghost use Rattle.summary.specs.Cells.{Ready, gone, lane, size, first, second, cross_by};
ghost use Rattle.summary.specs.Edges.{Relaxed, Row, Below};
ghost use Rattle.summary.specs.Shapes.{sizes};

use crate::cells::{first_of, gone_at, lane_cell, second_of};
use crate::edges::long_row;
use crate::transition::{Push, Transition};
use model::Right;

// The edges of a transition whose first turn end is the one of lane l. How many cells have fallen.
pub fn cross_rule(table: &mut [u16], l: usize, step: Transition) -> u64
    requires ready { Ready step.shape.controls (size step.shape.controls) table.old }
    requires lane { l < 16 }
    ensures { Relaxed (cross_by (sizes step.shape) l step.from step.symbol step.to step.right) table.old table.new result
        × (result ≤ 2048) }
{
    match step.right {
        Right::Remove => 0,
        Right::Swap(_) => 0,
        Right::Push(a, b) => cross_pushes(table, l, Push { step, a, b }),
    }
}

// The edges of a push, at each control q where the first symbol goes.
fn cross_pushes(table: &mut [u16], l: usize, push: Push) -> u64
    requires ready { Ready push.step.shape.controls (size push.step.shape.controls) table.old }
    requires lane { l < 16 }
    ensures { Relaxed (Below push.step.shape.controls (λ q.
        Row 1 (lane (second push.step.shape.controls) push.step.from push.step.symbol 0)
        (lane (first push.step.shape.controls) push.step.to push.a.0 (gone q) + l)
        (lane (first push.step.shape.controls) q push.b.0 0) (push.step.shape.dests * 16)))
        table.old table.new result
        × (result ≤ 256 * push.step.shape.controls) }
{
    let step = push.step;
    let shape = step.shape;
    let first = first_of(shape.controls);
    let second = second_of(shape.controls);
    let mut changes = 0;
    for q in 0..shape.controls {
        changes += long_row(
            table,
            1,
            lane_cell(second, step.from, step.symbol, 0),
            lane_cell(first, step.to, push.a.0 as usize, gone_at(q)) + l,
            lane_cell(first, q, push.b.0 as usize, 0),
            shape.dests * 16,
        );
    }
    changes
}
