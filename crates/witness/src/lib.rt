// The first of the shortest schedules along a line: each thread's first run along it, then both merged by turn.
#![tactic(auto)]

ghost use Rattle.std.specs.Prelude.{true, ◌≡◌, ℕ, suc, Some, None, ◌+◌, ◌*◌, ◌^◌, ◌≤◌, ◌<◌, length};
ghost use Rattle.model.specs.First.{First};
ghost use Rattle.model.specs.Fits.{Fits};
ghost use Rattle.model.specs.Lines.{digits};
ghost use Rattle.model.specs.Runs.{EndsUnder};
ghost use Rattle.model.specs.Schedules.{most_bytes, Stored};
ghost use Rattle.model.specs.Walk.{thread_of};
ghost use Rattle.costs.specs.Lanes.{TableFor, Value};
ghost use Rattle.summary.specs.Cells.{controls_of, size};
ghost use Rattle.witness.specs.Chosen.{Chosen, ChosenBy};
ghost use Rattle.witness.specs.Solves.{SameEnd, SideOf, Solves, SolvesFor, SolvesIfLine, SolvesForIfLine, FirstOf};

mod merge;

use costs::side::Side;
use costs::side_of;
use model::{MOST_BYTES, Model, ThreadId};
use run::levels::Levels;
use run::solve::base;
use run::steps::steps;

// That the model is in range is a clause of each call. With a type for it each clause would say `x.model` for `m`, and each caller would
// build it from the proof that it now gives. The two tables and the levels are lent to each call one by one: a struct that lends them would
// promise in each call that its `&mut` are still the caller's.

// Solves what the schedules of all lines share: the table of A in a, that of B in b.
pub fn prepare(m: Model, a: &mut [u16], b: &mut [u16])
    requires fits { Fits m }
    requires first { TableFor m a.old }
    requires second { TableFor m b.old }
    ensures { Solves m None a.new b.new }
{
    prepare_one(m, ThreadId::A, a);
    prepare_one(m, ThreadId::B, b);
}

// The same for one thread.
fn prepare_one(m: Model, id: ThreadId, table: &mut [u16])
    requires fits { Fits m }
    requires room { size (controls_of (thread_of id m) m.g) ≤ length table.old }
    ensures { SolvesFor m id None table.new }
{
    let side = side_for(m, id);
    base(table, &side.system, side.n);
}

// The side of a thread of a model, for the top that the model names.
fn side_for(m: Model, id: ThreadId) -> Side
    requires { Fits m }
    ensures { SideOf m id result }
{
    let th = match id {
        ThreadId::A => m.a,
        ThreadId::B => m.b,
    };
    side_of(m, id, th, th.top)
}

// Writes the first of the shortest schedules along the full line whose value is v to the tops that the model names, where x and y are the
// least steps of A and of B along it. `last` is the line that was written before, if one was: where a thread's first turn end is the same,
// its table is not solved again. A number that is no line's value counts as none. That the schedule has room is a clause: docs/PROMISES.md
// names this call, and an array would ask more.
pub fn write(
    m: Model,
    v: usize,
    x: u16,
    y: u16,
    last: Option<usize>,
    a: &mut [u16],
    b: &mut [u16],
    levels: &mut Levels,
    schedule: &mut [u8],
)
    requires fits { Fits m }
    requires chosen { Chosen m v x y }
    requires solved { SolvesIfLine m last a.old b.old }
    requires room { most_bytes ≤ length schedule.old }
    ensures first { Stored (First (EndsUnder m (digits m.g (2 * m.k) v)) (x + y)) (x + y) 0
        schedule.old schedule.new }
    ensures tables { Solves m (Some v) a.new b.new }
{
    let mut one = [0u8; MOST_BYTES];
    let mut other = [0u8; MOST_BYTES];
    write_one(m, ThreadId::A, v, x as usize, last, a, levels, &mut one);
    write_one(m, ThreadId::B, v, y as usize, last, b, levels, &mut other);
    let end_one = 2 * x as usize;
    let end_other = 2 * y as usize;
    merge::merge(&one[..end_one], &other[..end_other], schedule);
}

// Writes one thread's first run along the line.
fn write_one(
    m: Model,
    id: ThreadId,
    v: usize,
    count: usize,
    last: Option<usize>,
    table: &mut [u16],
    levels: &mut Levels,
    out: &mut [u8; MOST_BYTES],
)
    requires fits { Fits m }
    requires chosen { ChosenBy m id v count }
    requires solved { SolvesForIfLine m id last table.old }
    ensures first { FirstOf m id v count out.old out.new }
    ensures table { SolvesFor m id (Some v) table.new }
{
    let side = side_for(m, id);
    let known = same_end(&side, last, v);
    steps(table, &side, v, count, known, levels, out);
}

// Whether a full line is known, and has the thread's first turn end in common with another. A number past the last line is none.
fn same_end(side: &Side, last: Option<usize>, v: usize) -> bool
    requires { Value side.now v }
    ensures { result ≡ true → SameEnd side.now.id side.now.system.g side.now.n last v }
{
    let Some(old) = last else {
        return false;
    };
    if side.lines() <= old {
        return false;
    }
    side.line(old).lane(side.id, 0) == side.line(v).lane(side.id, 0)
}
