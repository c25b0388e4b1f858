// The model record: reading and writing, exact to the byte. The format is defined in specs/.
#![tactic(auto)]

ghost use Rattle.std.specs.Prelude.{◌≡◌, length};
ghost use Rattle.model.specs.Refusals.{told};
ghost use Rattle.record.specs.Held.{reading_of};
ghost use Rattle.record.specs.Kept.{Keeps};
ghost use Rattle.record.specs.Reader.{read_of};
ghost use Rattle.record.specs.Written.{written_of, store_of, Survives};

use model::{Model, Refusal, need};
pub use rules::RuleList;

mod bytes;
pub mod reader;
mod rules;
mod targets;

// A model that was read from the front of some bytes, and how many of them its record takes.
#[derive(Clone, Copy)]
pub struct Front {
    pub model: Model,
    pub size: usize,
}

// The model of a record, or its first fault; bytes that follow the last field are one.
#[tactic(auto, using(crate::proofs::Fronts::refused_too, crate::proofs::Fronts::read_more, crate::proofs::Fronts::read_whole))]
pub fn read(bytes: &[u8]) -> Result<Model, Refusal>
    ensures answer { told result ≡ reading_of (read_of bytes.now) }
    ensures kept { Keeps result bytes.now }
{
    let found = reader::front(bytes)?;
    need(bytes.len() <= found.size, Refusal::Trailing)?;
    Ok(found.model)
}

// Writes a model's record to the front of the store, which stays as it was where the call refuses.
#[tactic(auto, using(crate::proofs::Writing::small_model, crate::proofs::Writing::taken, crate::proofs::Refused::in_order, writer::proofs::Lengths::at_most))]
pub fn write(m: Model, store: &mut [u8]) -> Result<usize, Refusal>
    ensures answer { told result ≡ written_of m (length store.old) }
    ensures stored { store.new ≡ store_of m store.old }
    ensures survives { Survives m result store.new }
{
    model::check(m)?;
    let mut buffer = [0u8; 670];
    let n = writer::put_record(&mut buffer, m);
    need(n <= store.len(), Refusal::Store)?;
    store[..n].copy_from_slice(&buffer[..n]);
    Ok(n)
}
