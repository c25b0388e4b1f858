// Trays: records one after another. Reading at the front gives the first model, and the rest as the caller's own bytes.
#![tactic(auto)]

ghost use Rattle.std.specs.Prelude.{◌≡◌};
ghost use Rattle.model.specs.Refusals.{told};
ghost use Rattle.tray.specs.Answer.{first_reading_of, LastPart, Stands};
ghost use Rattle.tray.specs.Tray.{tray_of, rest_of};

use model::Refusal;
use record::Front;

// The first record of a tray: none in an empty one, else its model and how many bytes it has. Bytes behind it are no fault.
#[tactic(auto, using(crate::proofs::Fronts::none_told, crate::proofs::Fronts::accepted_told, crate::proofs::Fronts::refused_told))]
pub fn first(tray: &[u8]) -> Result<Option<Front>, Refusal>
    ensures answer { told result ≡ first_reading_of (tray_of tray.now) }
    ensures stands { Stands result tray.now }
{
    if tray.is_empty() {
        return Ok(None);
    }
    let found = record::reader::front(tray)?;
    Ok(Some(found))
}

// The rest of a tray, from the byte after its first record on; empty where none is accepted.
#[tactic(auto, using(crate::proofs::Fronts::left, crate::proofs::Fronts::nothing_left, crate::proofs::Parts::last_part))]
pub fn rest(tray: &[u8]) -> &[u8]
    ensures bytes { result.now ≡ rest_of (tray_of tray.now) }
    ensures own { LastPart tray.entry result }
{
    match record::reader::front(tray) {
        Ok(found) => &tray[found.size..],
        Err(_) => &tray[tray.len()..],
    }
}
