// The edges of rules within one turn.
ghost use Rattle.std.specs.Prelude.{◌*◌, ◌≤◌, length};
ghost use Rattle.summary.specs.Cells.{Ready, plain, gone, first, plain_by};
ghost use Rattle.summary.specs.Edges.{Relaxed, Row, Below};
ghost use Rattle.summary.specs.Shapes.{sizes};

use crate::cells::{REST, gone_at, plain_cell};
use crate::edges::{row, usual_row};
use crate::transition::{Push, Transition};
use model::Right;

// The edges of a transition. How many cells have fallen.
pub fn plain_rule(table: &mut [u16], step: Transition) -> u64
    requires { Ready step.shape.controls (first step.shape.controls) table.old }
    ensures { Relaxed (plain_by (sizes step.shape) step.from step.symbol step.to step.right) table.old table.new result
        × (result ≤ 136) }
{
    match step.right {
        Right::Remove => row(
            table,
            1,
            plain_cell(step.from, step.symbol, gone_at(step.to)),
            REST,
            REST,
            1,
        ),
        Right::Swap(a) => usual_row(
            table,
            1,
            plain_cell(step.from, step.symbol, 0),
            REST,
            plain_cell(step.to, a.0 as usize, 0),
            step.shape.dests,
            8,
        ),
        Right::Push(a, b) => {
            let below = plain_pushes(table, Push { step, a, b });
            below
                + usual_row(
                    table,
                    1,
                    plain_cell(step.from, step.symbol, 4),
                    REST,
                    plain_cell(step.to, a.0 as usize, 4),
                    step.shape.stays - 4,
                    4,
                )
        }
    }
}

// The edges of a push whose first symbol goes: at each control q.
fn plain_pushes(table: &mut [u16], push: Push) -> u64
    requires { Ready push.step.shape.controls (first push.step.shape.controls) table.old }
    ensures { Relaxed (Below push.step.shape.controls (λ q. Row 1 (plain push.step.from push.step.symbol 0)
        (plain push.step.to push.a.0 (gone q)) (plain q push.b.0 0) push.step.shape.dests)) table.old table.new result
        × (result ≤ 16 * push.step.shape.controls) }
{
    let step = push.step;
    let mut changes = 0;
    for q in 0..step.shape.controls {
        changes += usual_row(
            table,
            1,
            plain_cell(step.from, step.symbol, 0),
            plain_cell(step.to, push.a.0 as usize, gone_at(q)),
            plain_cell(q, push.b.0 as usize, 0),
            step.shape.dests,
            8,
        );
    }
    changes
}
