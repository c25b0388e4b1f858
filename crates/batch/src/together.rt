// A tray read, its sizes tested, and its records judged, in this order.
ghost use Rattle.std.specs.Prelude.{◌≡◌};
ghost use Rattle.model.specs.Refusals.{due};
ghost use Rattle.batch.specs.Batch.{size_refusal};
ghost use Rattle.batch.specs.Each.{JudgesAll};

use crate::Outcome;
use crate::each::{MOST_RECORDS, each};
use crate::whole::count;
use model::{MOST_BYTES, Refusal, need};

// The outcomes of so many records, in the first places. There is no heap, so the count stands beside 32 places.
#[derive(Clone, Copy)]
pub struct Batch {
    pub count: usize,
    pub outcomes: [Outcome; MOST_RECORDS],
}

// Judges the records of a tray, for a list of so many places.
pub fn judge_all(places: usize, tray: &[u8], store: &mut [u8]) -> Result<Batch, Refusal>
    ensures { JudgesAll tray.now places result store.old store.new }
{
    let n = count(tray)?;
    check_sizes(n, places, store.len())?;
    let outcomes = each(n, tray, store);
    Ok(Batch { count: n, outcomes })
}

// What is refused of so many records, for a list of so many places and a store of so many bytes.
#[tactic(auto, unfolding(crate::specs::Batch::size_refusal, model::specs::Results::first_of))]
fn check_sizes(n: usize, places: usize, bytes: usize) -> Result<(), Refusal>
    ensures { due result ≡ size_refusal n places bytes }
{
    need(n <= MOST_RECORDS, Refusal::ManyRecords)?;
    need(n <= places, Refusal::Places)?;
    need(MOST_BYTES <= bytes, Refusal::Store)
}
