// A thread as a pushdown system.
ghost use Rattle.std.specs.Prelude.{◌≡◌, ◌≤◌};
ghost use Rattle.model.specs.Fits.{TopFits, ThreadFits};
ghost use Rattle.summary.specs.Cells.{controls_of};
ghost use Rattle.summary.specs.Props.{top_prop, thread_prop};
ghost use Rattle.summary.specs.Sizes.{shape_of};

use crate::shape::Shape;
use crate::{controls_of, shape_of};
use model::{Thread, Top};

// A thread's rules over the shared states below g, the top that is asked for, and the shape of its table.
#[derive(Clone, Copy)]
pub struct Pushdown {
    pub g: usize,
    pub top: Top,
    pub th: Thread,
    pub shape: Shape,
    ghost some: { 1 ≤ g },
    ghost four: { g ≤ 4 },
    ghost top_in: { TopFits top } by { top_prop top },
    ghost fits: { ThreadFits g th } by { thread_prop g th },
    ghost controls: { shape.controls ≡ controls_of th g },
    ghost stays: { shape.stays ≡ (shape_of top (controls_of th g)).stays },
    ghost dests: { shape.dests ≡ (shape_of top (controls_of th g)).dests },
}

impl Pushdown {
    // The system of a thread whose rules fit g shared states, for a top.
    pub fn new(th: Thread, g: usize, top: Top) -> Pushdown
        requires { (1 ≤ g) × (g ≤ 4) × TopFits top × ThreadFits g th }
        ensures { (result.g ≡ g) × (result.top ≡ top) × (result.th ≡ th) }
    {
        let shape = shape_of(top, controls_of(th, g));
        Pushdown { g, top, th, shape }
    }
}
