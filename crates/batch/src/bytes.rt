// Outcomes as bytes, six for each.
ghost use Rattle.std.specs.Prelude.{[], ◌∷◌, ◌≡◌, ◌*◌, ◌≤◌, length, take};
ghost use Rattle.std.proofs.lemmas.List.Edits.{sets};
ghost use Rattle.batch.specs.Batch.{most_records};
ghost use Rattle.batch.specs.Bytes.{outcome_bytes};
ghost use Rattle.writer.specs.Output.{Appends, HasRoom};

use crate::Outcome;
use crate::together::Batch;
use writer::Output;

// Puts all outcomes at the front of a list.
pub fn put_all(all: Batch, list: &mut [u8])
    requires { (all.count ≤ most_records) × (length all.outcomes ≡ most_records) × (6 * all.count ≤ length list.old) }
    ensures { list.new ≡ sets list.old 0 (outcome_bytes (take all.count all.outcomes)) }
{
    let mut out = Output::new(list);
    for outcome in &all.outcomes[..all.count] {
        put(&mut out, *outcome);
    }
}

// Puts an outcome, the low byte of a number first.
#[tactic(auto, using(writer::proofs::Outputs::appended))]
fn put(out: &mut Output, o: Outcome)
    requires { HasRoom out.old (outcome_bytes (o ∷ [])) }
    ensures { Appends out.old out.new (outcome_bytes (o ∷ [])) }
{
    out.byte(o.verdict);
    out.bytes(&o.steps.to_le_bytes());
    out.byte(u8::from(o.written));
    out.bytes(&o.place.to_le_bytes());
}
