// The calls for C and Rust: bytes in, a number out, and a record in place of a model. The numbers are defined in specs/. What each call does is in
// `calls`; here stands one function for each exported name, as the C interface wants it, so some look alike.
#![tactic(auto)]

ghost use Rattle.ffi.specs.Calls.{ReadCall, WriteCall, MergeCall, LinesCall};
ghost use Rattle.ffi.specs.Calls.{JudgeCall, ReplayCall, PageCall, FollowCall, FirstCall, BatchCall, SequentializeCall};

mod calls;
mod numbers;

use crate::numbers::number;

// Reads a record: done where it is accepted.
#[unsafe(no_mangle)]
pub extern "C" fn turncheck_read(bytes: &[u8]) -> u64
    ensures { ReadCall bytes.now result }
{
    number(calls::read(bytes))
}

// Reads a record and writes its model's record to the front of the store: written, with its length.
#[unsafe(no_mangle)]
pub extern "C" fn turncheck_write(bytes: &[u8], store: &mut [u8]) -> u64
    ensures { WriteCall bytes.now result store.old store.new }
{
    number(calls::write(bytes, store))
}

// Reads two records and writes the record of their models made one to the front of the store: written, with its length.
#[unsafe(no_mangle)]
pub extern "C" fn turncheck_merge(first: &[u8], second: &[u8], store: &mut [u8]) -> u64
    ensures { MergeCall first.now second.now result store.old store.new }
{
    number(calls::merge(first, second, store))
}

// Reads a record and fills its model's line table: done.
#[unsafe(no_mangle)]
pub extern "C" fn turncheck_lines(bytes: &[u8], lines: &mut [u8]) -> u64
    ensures { LinesCall bytes.now result lines.old lines.new }
{
    number(calls::lines(bytes, lines))
}

// Reads a record and judges its model: the verdict, Found with its steps and depths.
#[unsafe(no_mangle)]
pub extern "C" fn turncheck_judge(bytes: &[u8], lines: &mut [u8], schedule: &mut [u8]) -> u64
    ensures { JudgeCall bytes.now result lines.old lines.new
        schedule.old schedule.new }
{
    number(calls::judge(bytes, lines, schedule))
}

// Reads a record and replays a schedule of its model: the last shared state and the depths, by whether the run ends at the target.
#[unsafe(no_mangle)]
pub extern "C" fn turncheck_replay(bytes: &[u8], schedule: &[u8]) -> u64
    ensures { ReplayCall bytes.now schedule.now result }
{
    number(calls::replay(bytes, schedule))
}

// Reads a record and puts the page of a schedule of its model at the front of the store: paged, with its length.
#[unsafe(no_mangle)]
pub extern "C" fn turncheck_page(bytes: &[u8], schedule: &[u8], store: &mut [u8]) -> u64
    ensures { PageCall bytes.now schedule.now result store.old store.new }
{
    number(calls::page(bytes, schedule, store))
}

// Reads a record and prints the rules of its model's sequential system at the front of the store: printed, with the length of their text.
#[unsafe(no_mangle)]
pub extern "C" fn turncheck_sequentialize(bytes: &[u8], store: &mut [u8]) -> u64
    ensures { SequentializeCall bytes.now result store.old store.new }
{
    number(calls::sequentialize(bytes, store))
}

// Reads a record and follows a log of its model: the last shared state and the fewest rounds that could hold the log.
#[unsafe(no_mangle)]
pub extern "C" fn turncheck_follow(bytes: &[u8], log: &[u8]) -> u64
    ensures { FollowCall bytes.now log.now result }
{
    number(calls::follow(bytes, log))
}

// Reads the first record of a tray: taken, with its length, or none.
#[unsafe(no_mangle)]
pub extern "C" fn turncheck_first(tray: &[u8]) -> u64
    ensures { FirstCall tray.now result }
{
    number(calls::first(tray))
}

// Judges the records of a tray. Puts the outcomes at the front of the list, six bytes for each, and the schedules that fit at the front of the
// store: judged, with the number of records.
#[unsafe(no_mangle)]
pub extern "C" fn turncheck_batch(tray: &[u8], list: &mut [u8], store: &mut [u8]) -> u64
    ensures { BatchCall tray.now result list.old list.new store.old store.new }
{
    number(calls::batch(tray, list, store))
}
