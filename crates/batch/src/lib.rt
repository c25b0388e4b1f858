// Trays judged together: each record as if it stood alone, with one schedule store for all.
#![tactic(auto)]

ghost use Rattle.batch.specs.Batch.{Listed};
ghost use Rattle.batch.specs.Bytes.{ListedBytes};

mod bytes;
mod each;
mod one;
mod together;
mod whole;

use model::Refusal;
use together::judge_all;

// What a record comes to: its verdict (0 Clear, 1 Long, 2 Found), the steps of a shortest run where it is Found, whether its schedule was
// written, and the place of that schedule's first step in the store. The fields are those of document 02, which `outcomes_from` names: the verdict a
// number, the place 0 where nothing is written.
#[repr(C)]
#[derive(Clone, Copy)]
pub struct Outcome {
    pub verdict: u8,
    pub steps: u16,
    pub written: bool,
    pub place: u16,
}

// Judges the records of a tray, and answers how many there are. Fills the first places of the list with their outcomes, and the front of
// the store with the schedules that fit, in their order.
pub fn to_list(list: &mut [Outcome], tray: &[u8], store: &mut [u8]) -> Result<usize, Refusal>
    ensures { Listed tray.now result list.old list.new store.old store.new }
{
    let all = judge_all(list.len(), tray, store)?;
    for i in 0..all.count {
        list[i] = all.outcomes[i];
    }
    Ok(all.count)
}

// The same with a list of bytes, six for each outcome.
pub fn to_bytes(list: &mut [u8], tray: &[u8], store: &mut [u8]) -> Result<usize, Refusal>
    ensures { ListedBytes tray.now result list.old list.new store.old store.new }
{
    let all = judge_all(list.len() / 6, tray, store)?;
    bytes::put_all(all, list);
    Ok(all.count)
}
