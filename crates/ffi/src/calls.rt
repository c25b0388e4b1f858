// What each exported call does with its bytes, by its name: the number of its answer, or a refusal.
ghost use Rattle.ffi.specs.Calls.{ReadCall, WriteCall, MergeCall, LinesCall};
ghost use Rattle.ffi.specs.Calls.{JudgeCall, ReplayCall, PageCall, FollowCall, FirstCall, BatchCall, SequentializeCall};
ghost use Rattle.ffi.specs.Replies.{number_in};

use crate::numbers::{Kind, end_kind, with_depths, with_field, with_fields};
use judge::Verdict;
use model::Refusal;

// Done where the bytes are a record, else why they are none.
pub fn read(bytes: &[u8]) -> Result<u64, Refusal>
    ensures { ReadCall bytes.now (number_in result) }
{
    record::read(bytes).and(Ok(Kind::Done as u64))
}

// The length of the record that is written.
// Alike in form: one function for the three would take the call as a closure, with its clause again.
pub fn write(bytes: &[u8], store: &mut [u8]) -> Result<u64, Refusal>
    ensures { WriteCall bytes.now (number_in result) store.old store.new }
{
    let m = record::read(bytes)?;
    let n = record::write(m, store)?;
    Ok(with_field(Kind::Written, n as u64))
}

// The length of the record that is written of two models made one.
pub fn merge(first: &[u8], second: &[u8], store: &mut [u8]) -> Result<u64, Refusal>
    ensures { MergeCall first.now second.now (number_in result) store.old store.new }
{
    let m = record::read(first)?;
    let n = record::read(second)?;
    let whole = merge::merge(m, n)?;
    let size = record::write(whole, store)?;
    Ok(with_field(Kind::Written, size as u64))
}

// Done where the line table is filled.
pub fn lines(bytes: &[u8], lines: &mut [u8]) -> Result<u64, Refusal>
    ensures { LinesCall bytes.now (number_in result) lines.old lines.new }
{
    let m = record::read(bytes)?;
    reach::lines(m, lines).and(Ok(Kind::Done as u64))
}

// The verdict, Found with its steps and depths.
pub fn judge(bytes: &[u8], lines: &mut [u8], schedule: &mut [u8]) -> Result<u64, Refusal>
    ensures { JudgeCall bytes.now (number_in result) lines.old lines.new schedule.old schedule.new }
{
    let m = record::read(bytes)?;
    let verdict = judge::judge(m, lines, schedule)?;
    match verdict {
        Verdict::Clear => Ok(Kind::Clear as u64),
        Verdict::Long => Ok(Kind::Long as u64),
        Verdict::Found(n, depths) => Ok(with_depths(Kind::Found, n, depths)),
    }
}

// Where a schedule ends: the last shared state and the depths, and whether the target is reached.
pub fn replay(bytes: &[u8], schedule: &[u8]) -> Result<u64, Refusal>
    ensures { ReplayCall bytes.now schedule.now (number_in result) }
{
    let m = record::read(bytes)?;
    let end = replay::replay(m, schedule)?;
    Ok(with_depths(end_kind(end.reached), end.shared.0 as u64, end.depths))
}

// The length of a schedule's page.
// Alike in form: one function for the three would take the call as a closure, with its clause again.
pub fn page(bytes: &[u8], schedule: &[u8], store: &mut [u8]) -> Result<u64, Refusal>
    ensures { PageCall bytes.now schedule.now (number_in result) store.old store.new }
{
    let m = record::read(bytes)?;
    let n = page::page(m, schedule, store)?;
    Ok(with_field(Kind::Paged, n as u64))
}

// The length of the text of the rules that are printed.
// Alike in form: one function for the three would take the call as a closure, with its clause again.
pub fn sequentialize(bytes: &[u8], store: &mut [u8]) -> Result<u64, Refusal>
    ensures { SequentializeCall bytes.now (number_in result) store.old store.new }
{
    let m = record::read(bytes)?;
    let n = sequential::print(m, store)?;
    Ok(with_field(Kind::Printed, n as u64))
}

// Where a log ends: the last shared state and the fewest rounds that could hold it.
pub fn follow(bytes: &[u8], log: &[u8]) -> Result<u64, Refusal>
    ensures { FollowCall bytes.now log.now (number_in result) }
{
    let m = record::read(bytes)?;
    let end = logs::follow(m, log)?;
    Ok(with_fields(Kind::Followed, end.shared.0 as u64, end.rounds as u64, 0))
}

// The length of the first record of a tray, or that there is none.
pub fn first(tray: &[u8]) -> Result<u64, Refusal>
    ensures { FirstCall tray.now (number_in result) }
{
    let found = tray::first(tray)?;
    match found {
        Some(front) => Ok(with_field(Kind::Taken, front.size as u64)),
        None => Ok(Kind::None as u64),
    }
}

// How many records of a tray are judged.
pub fn batch(tray: &[u8], list: &mut [u8], store: &mut [u8]) -> Result<u64, Refusal>
    ensures { BatchCall tray.now (number_in result) list.old list.new store.old store.new }
{
    let n = batch::to_bytes(list, tray, store)?;
    Ok(with_field(Kind::Judged, n as u64))
}
