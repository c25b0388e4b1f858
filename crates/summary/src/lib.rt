// Least step counts of one thread. They are held in sixteen bits: none is above 4,097, so two of them and a step add up without wrapping.
#![tactic(auto)]

ghost use Rattle.std.specs.Prelude.{◌≡◌, ◌+◌, ◌≤◌};
ghost use Rattle.summary.specs.Cells.{controls_of, stays_of};
ghost use Rattle.summary.specs.Shapes.{sizes};
ghost use Rattle.summary.specs.Sizes.{shape_of};

use crate::shape::Shape;
pub use crate::transition::Push;
use model::{Thread, Top};

pub mod cells;
mod cross;
pub mod edges;
mod ends;
mod lanes;
mod plain;
pub mod pushdown;
mod search;
pub mod shape;
mod transition;
pub mod turns;

// Stands for a count of so many steps or more: runs exist, and each has as many. This and the next are numbers and no Option, so that a row adds
// and compares eight cells at once.
pub const CAP: u16 = 4096;

// Stands for no count: there is no run.
pub const UNREACHED: u16 = 4097;

// Which edges of a rule a pass relaxes: those within one turn; those with turn ends inside one of its parts, in the part of the
// table that starts at a cell; or those with one turn end inside each of its parts, the first of them in a lane.
// An enum and no closure: one definition says the edges of each kind (`RuleEdges`), which each closure would have to promise again.
#[derive(Clone, Copy)]
pub enum Kind {
    Plain,
    Lanes(usize),
    Cross(usize),
}

// How many controls a thread's table has, with g states: twice as many where rules are held.
pub fn controls_of(th: Thread, g: usize) -> usize
    requires { g ≤ 4 }
    ensures { (result ≡ controls_of th g) × (g ≤ result) × (result ≤ 4 + g) }
{
    if model::all_zero(th.held) { g } else { 4 + g }
}

// The shape of a table of so many controls for a top.
pub fn shape_of(top: Top, controls: usize) -> Shape
    requires { (1 ≤ controls) × (controls ≤ 8) }
    ensures { sizes result ≡ shape_of top controls }
{
    let stays = stays_of(top) + 4;
    Shape {
        controls,
        stays,
        dests: if 4 < controls { 16 } else { stays },
    }
}

// The first destination of staying under any top.
pub const STAYS: usize = 4;

// The first destination of staying under the named top.
pub const NAMED: usize = 8;

// The first of the destinations of staying under a top.
pub fn stays_of(top: Top) -> usize
    ensures { (result ≡ stays_of top) × (result ≤ 8) }
{
    match top {
        None => STAYS,
        Some(_) => NAMED,
    }
}
