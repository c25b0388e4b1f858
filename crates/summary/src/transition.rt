// A rule where it acts, and the push that it makes there.
ghost use Rattle.std.specs.Prelude.{◌≤◌, ◌<◌};
ghost use Rattle.model.specs.Fits.{RightFits};
ghost use Rattle.summary.specs.Props.{right_prop};

use crate::shape::Shape;
use model::{Right, Symbol};

// A transition of a rule: from a control with a symbol on top to a control, in a table of a shape.
#[derive(Clone, Copy)]
pub struct Transition {
    pub shape: Shape,
    pub from: usize,
    pub symbol: usize,
    pub to: usize,
    pub right: Right,
    ghost from_in: { from < shape.controls },
    ghost symbol_in: { symbol ≤ 15 },
    ghost to_in: { to < shape.controls },
    ghost right_in: { RightFits right } by { right_prop right },
}

// A transition that pushes: `a` then lies on `b`.
#[derive(Clone, Copy)]
pub struct Push {
    pub step: Transition,
    pub a: Symbol,
    pub b: Symbol,
    ghost a_in: { a.0 ≤ 15 },
    ghost b_in: { b.0 ≤ 15 },
}
