// The costs of a thread along full lines: the least number of its steps along each, capped.
#![tactic(auto)]

ghost use Rattle.std.specs.Prelude.{◌≡◌, ◌-◌, ◌≤◌, None, length};
ghost use Rattle.model.specs.Fits.{Fits, TopFits, ThreadFits};
ghost use Rattle.summary.specs.Cells.{controls_of, size};
ghost use Rattle.costs.specs.Cost.{BothCosts, WhereNamed, FirstNamed, SecondNamed};
ghost use Rattle.costs.specs.Lanes.{full_lines, TableFor, SideCosts};

pub mod line;
pub mod parts;
mod passage;
mod reading;
pub mod room;
pub mod side;
mod slices;
pub mod table;

use crate::reading::Reading;
use crate::side::Side;
use crate::slices::fill_ends;
use model::{Model, Thread, ThreadId, Top};
use summary::pushdown::Pushdown;
pub use summary::{NAMED, STAYS};

// So many full lines there are at most: four states at the ends of six turns.
pub const LINES: usize = 4096;

// That a model is in range is a clause of these calls and of those that go by them: a caller may hold any model, so `Model` cannot say it, and the
// caller has checked it already. With a type for it each clause would say `x.model` for `m`, and each caller would build it from the proof that it
// now gives.

// The costs of all full lines of both threads of a model in range, to any top. The table is for the search.
pub fn lines(m: Model, table: &mut [u16], a: &mut [u16], b: &mut [u16])
    requires fits { Fits m }
    requires room { TableFor m table.old × (length a.old ≡ full_lines) × (length b.old ≡ full_lines) }
    ensures { BothCosts m None None a.new b.new }
{
    // no top is named, so the list for it is not looked at: a list of one cell stands for none, since an `Option` of a lent list would be opened
    // again in each call below
    let mut none = [0u16; 1];
    fill(table, a, &mut none, &side_of(m, ThreadId::A, m.a, None));
    fill(table, b, &mut none, &side_of(m, ThreadId::B, m.b, None));
}

// The same, and in x and y those to the tops that the model names.
pub fn both(m: Model, table: &mut [u16], a: &mut [u16], b: &mut [u16], x: &mut [u16], y: &mut [u16])
    requires fits { Fits m }
    requires room { TableFor m table.old × (length a.old ≡ full_lines) × (length b.old ≡ full_lines) }
    requires named { (length x.old ≡ full_lines) × (length y.old ≡ full_lines) }
    ensures lines { BothCosts m None None a.new b.new }
    ensures first { FirstNamed m x.new }
    ensures second { SecondNamed m y.new }
{
    fill(table, a, x, &side_of(m, ThreadId::A, m.a, m.a.top));
    fill(table, b, y, &side_of(m, ThreadId::B, m.b, m.b.top));
}

// The side of a thread of a model, for a top.
pub fn side_of(m: Model, id: ThreadId, th: Thread, top: Top) -> Side
    requires { Fits m × TopFits top × ThreadFits m.g th }
    ensures system { (result.system.th ≡ th) × (result.system.g ≡ m.g) × (result.system.top ≡ top) }
    ensures turns { (result.id ≡ id) × (result.n ≡ m.k - 1) × (result.start ≡ m.start.0) }
{
    Side {
        system: Pushdown::new(th, m.g as usize, top),
        id,
        n: m.k as usize - 1,
        start: m.start.0 as usize,
    }
}

// The costs of all full lines of a side: to any top, and to the named one. Both lists and the table are lent by the caller, each with its own room,
// so what is asked of each is a clause: a struct that holds them would promise in each call that its `&mut` are still the caller's.
fn fill(table: &mut [u16], costs: &mut [u16], named: &mut [u16], side: &Side)
    requires room { size (controls_of side.now.system.th side.now.system.g) ≤ length table.old }
    requires costs { length costs.old ≡ full_lines }
    requires named { WhereNamed side.now.system.top (λ f. length named.old ≡ full_lines) }
    ensures any { SideCosts side.now None costs.new }
    ensures named { WhereNamed side.now.system.top (λ f. SideCosts side.now f named.new) }
{
    side.system.close_plain(table);
    if side.n == 0 {
        Reading::<0> { side, cells: table }.fill(costs, named);
        return;
    }
    side.system.close_first(table);
    if side.n == 1 {
        Reading::<1> { side, cells: table }.fill(costs, named);
        return;
    }
    fill_ends(table, costs, named, side);
}
