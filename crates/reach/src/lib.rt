// The table of marked lines, drawn from both threads' costs of all full lines.
#![tactic(auto)]

ghost use Rattle.std.specs.Prelude.{◌≡◌, ◌≤◌, length, replicate};
ghost use Rattle.model.specs.Fits.{Fits};
ghost use Rattle.model.specs.Refusals.{due};
ghost use Rattle.model.specs.Tables.{bytes_for, LineTable};
ghost use Rattle.costs.specs.Lanes.{TableFor};
ghost use Rattle.reach.specs.Answer.{outcome_of, Leaves};

use costs::LINES;
use draw::Costs;
use model::{Model, Refusal};
use summary::cells::{SIZE, SMALL};

// The table of the lines that runs of the model end along, once the model and the store's size are found good. Where no rule is held the
// smaller table will do for the search.
#[tactic(auto, using(draw::proofs::Refusals::sound, draw::proofs::Refusals::roomy, costs::proofs::Rooms::small_room, costs::proofs::Rooms::large_room))]
pub fn lines(m: Model, store: &mut [u8]) -> Result<(), Refusal>
    ensures answer { due result ≡ outcome_of m (length store.old) }
    ensures leaves { Leaves m result store.old store.new }
{
    draw::check_store(m, store.len())?;
    if costs::room::is_free(m) {
        fill::<SMALL>(m, store);
    } else {
        fill::<SIZE>(m, store);
    }
    Ok(())
}

// The line table of a model in range, into a store that has room for it, by a search in a table of N cells. It is a call of its own, so
// that the stack holds the one table that is used.
#[inline(never)]
fn fill<const N: usize>(m: Model, store: &mut [u8])
    requires fits { Fits m }
    requires few { N ≤ SIZE }
    requires table { TableFor m (replicate N 0) }
    requires room { bytes_for m.g m.k ≤ length store.old }
    ensures { LineTable m store.old store.new }
{
    let mut table = [0u16; N];
    let mut a = [0u16; LINES];
    let mut b = [0u16; LINES];
    costs::lines(m, &mut table, &mut a, &mut b);
    draw::draw(m, store, Costs { a: &a, b: &b });
}
