// One record among others: its model is judged alone, and its schedule goes behind those that are written.
ghost use Rattle.std.specs.Prelude.{cond, ◌≡◌, ◌*◌, ◌≤◌, length, take};
ghost use Rattle.std.proofs.lemmas.List.Edits.{sets};
ghost use Rattle.model.specs.Schedules.{most_bytes, most_steps};
ghost use Rattle.model.specs.Valid.{Valid};
ghost use Rattle.model.specs.Verdict as verdict;
ghost use Rattle.batch.specs.Each.{JudgedAlone};
ghost use Rattle.batch.specs.Outcomes.{outcome_of, place_of, without};

use crate::Outcome;
use judge::Verdict;
use model::{MOST_BYTES, Model};
use writer::copy;

// Judges a model, and writes its schedule where it fits behind the steps that are written.
pub fn one(m: Model, used: usize, store: &mut [u8]) -> Outcome
    requires valid { Valid m }
    requires written { used ≤ most_steps }
    requires room { most_bytes ≤ length store.old }
    ensures { JudgedAlone used m result store.old store.new }
{
    let mut lines = [0u8; judge::MOST_TABLE];
    let mut schedule = [0u8; MOST_BYTES];
    match judge::judge(m, &mut lines, &mut schedule) {
        Ok(Verdict::Clear) => unwritten(0, 0),
        Ok(Verdict::Long) => unwritten(1, 0),
        Ok(Verdict::Found(n, _)) => found(n as usize, used, &schedule, store),
        // no valid model is refused where the stores have room
        Err(_) => unreachable!(),
    }
}

// The outcome of a record whose schedule is not written.
pub fn unwritten(verdict: u8, steps: u16) -> Outcome
    ensures { result ≡ without verdict steps }
{
    Outcome {
        verdict,
        steps,
        written: false,
        place: 0,
    }
}

// Found, with its schedule at the front of a store of its own: it is written exactly if its steps fit in what is left.
fn found(steps: usize, used: usize, schedule: &[u8], store: &mut [u8]) -> Outcome
    requires { (steps ≤ most_steps) × (used ≤ most_steps) × (2 * steps ≤ length schedule.now) × (most_bytes ≤ length store.old) }
    ensures told { result ≡ outcome_of used (verdict.found steps) }
    ensures bytes { store.new ≡
        cond result.written (sets store.old (2 * used) (take (2 * steps) schedule.now)) store.old }
{
    if MOST_BYTES / 2 < used + steps {
        return unwritten(2, steps as u16);
    }
    let at = 2 * used;
    copy(schedule, &mut store[at..], 2 * steps);
    Outcome {
        verdict: 2,
        steps: steps as u16,
        written: true,
        place: place(used, steps),
    }
}

// The place of a schedule that is written behind so many steps: 0 for one of no steps, which stands nowhere.
#[tactic(auto, using(crate::proofs::Placing::placed))]
fn place(used: usize, steps: usize) -> u16
    requires { used ≤ most_steps }
    ensures { result ≡ place_of used steps }
{
    if steps == 0 { 0 } else { used as u16 }
}
