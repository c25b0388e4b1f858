// The records of a tray, judged one after another.
ghost use Rattle.std.specs.Prelude.{◌≤◌, ◌≡◌, length};
ghost use Rattle.model.specs.Schedules.{most_bytes};
ghost use Rattle.batch.specs.Batch.{most_records};
ghost use Rattle.batch.specs.Counts.{Holds};
ghost use Rattle.batch.specs.Each.{EachJudged};
ghost use Rattle.batch.specs.Outcomes.{used_by};

use crate::Outcome;
use crate::one::{one, unwritten};

// The most records that are judged together.
pub const MOST_RECORDS: usize = 32;

// The outcomes of a tray's records, so many, in the first places. That the store has room is a clause here and below: a
// struct that lends the store would promise in each call that its `&mut` is still the caller's.
pub fn each(count: usize, tray: &[u8], store: &mut [u8]) -> [Outcome; MOST_RECORDS]
    requires holds { Holds tray.now count }
    requires few { count ≤ most_records }
    requires room { most_bytes ≤ length store.old }
    ensures { EachJudged tray.now count result store.old store.new }
{
    let mut list = [unwritten(0, 0); MOST_RECORDS];
    let mut rest = tray;
    let mut used = 0;
    for i in 0..count {
        match tray::first(rest) {
            Ok(Some(front)) => {
                let outcome = one(front.model, used, store);
                list[i] = outcome;
                used = used_by(used, outcome);
                rest = &rest[front.size..];
            }
            // there are so many records; one arm for both: tried, and the proof did not close
            Ok(None) => return list,
            Err(_) => return list,
        }
    }
    list
}

// How many steps are written after an outcome.
#[tactic(auto, using(crate::proofs::Placing::added, crate::proofs::Placing::added_none))]
fn used_by(used: usize, outcome: Outcome) -> usize
    requires { used ≤ most_bytes }
    ensures { result ≡ used_by used outcome }
{
    if outcome.written {
        return used + outcome.steps as usize;
    }
    used
}
