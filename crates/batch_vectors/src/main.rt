// Judges trays made by hand and files of random ones, and compares: the answer, the outcomes, the schedules, and what the list and the
// store keep.
#![tactic(auto)]

use std::io;
use vectors::{Cases, Tally};

// What every byte of the list and of the store holds before a call.
const KEPT: u8 = 170;

// The bytes of a list with 33 places, one more than are ever filled.
const LIST: usize = 198;

// The bytes of the shortest store that is not refused, which has room for 4,095 steps, and of one with ten bytes more.
const LEAST: usize = 8190;

const STORE: usize = 8200;

// The schedules of models One, Two and One, one after another.
const STEPS: [u8; 12] = [0, 0, 0, 0, 0, 1, 1, 0, 2, 2, 0, 0];

// A tray gets this answer, with an outcome of six bytes for each record, and these steps.
fn agrees(
    tray: &[u8],
    answer: u8,
    outcomes: &[u8],
    steps: &[u8],
    list: &mut [u8],
    store: &mut [u8],
) -> bool {
    let judged = batch::to_bytes(list, tray, store);
    vectors::number(judged) == answer
        && judged.unwrap_or(0) == outcomes.len() / 6
        && vectors::holds(list, outcomes, KEPT)
        && vectors::holds(store, steps, KEPT)
}

// A tray is judged with a list that has just the places needed and the shortest store.
fn fits(tray: &[u8], outcomes: &[u8], steps: &[u8]) -> bool {
    let n = outcomes.len();
    let mut list = [KEPT; LIST];
    n <= LIST && agrees(tray, 0, outcomes, steps, &mut list[..n], &mut [KEPT; LEAST])
}

// A tray is refused with this number where the list and the store have so many bytes, and both keep them all.
fn refused(tray: &[u8], list_size: usize, store_size: usize, answer: u8) -> bool {
    let mut list = [KEPT; LIST];
    let mut store = [KEPT; STORE];
    if LIST < list_size || STORE < store_size {
        return false;
    }
    agrees(
        tray,
        answer,
        &[],
        &[],
        &mut list[..list_size],
        &mut store[..store_size],
    )
}

// With a list one byte short a tray gets 20, and with a store one byte short 7, which comes after 20.
fn tight(tray: &[u8], outcomes: &[u8]) -> bool {
    let n = outcomes.len();
    if n == 0 {
        return refused(tray, 0, LEAST - 1, 7);
    }
    refused(tray, n - 1, LEAST - 1, 20) && refused(tray, n, LEAST - 1, 7)
}

// One case, with a list and a store that have room and, where the tray is judged, with such tight ones.
fn compare(tray: &[u8], answer: u8, outcomes: &[u8], steps: &[u8]) -> bool {
    agrees(
        tray,
        answer,
        outcomes,
        steps,
        &mut [KEPT; LIST],
        &mut [KEPT; STORE],
    ) && (answer != 0 || tight(tray, outcomes))
}

// A tray is judged, with these outcomes and steps.
fn judged(tray: &[u8], outcomes: &[u8], steps: &[u8]) -> bool {
    compare(tray, 0, outcomes, steps)
}

// Document 01's models in a row: One, Two and One; and Two at K=1, which is Clear, before One.
fn in_a_row() -> Tally {
    let row =
        *b"\x4B\x02\x01\x01\x01\x01\x00\x01\xC8\x03\x03\x06\x00\x00\x00\x01\x00\x01\x01\x20\x03\x01\x03\x10\x02\x00\x4B\x02\x01\x01\x01\x01\x00\x01";
    let clear =
        *b"\xCA\x01\x03\x03\x06\x00\x00\x00\x01\x00\x01\x01\x20\x03\x01\x03\x10\x02\x00\x4B\x02\x01\x01\x01\x01\x00\x01";
    Tally::of(&[
        judged(&row[0..8], &[2, 1, 0, 1, 0, 0], &STEPS[0..2]),
        judged(
            &row[0..26],
            &[2, 1, 0, 1, 0, 0, 2, 4, 0, 1, 1, 0],
            &STEPS[0..10],
        ),
        judged(
            &row[8..34],
            &[2, 4, 0, 1, 0, 0, 2, 1, 0, 1, 4, 0],
            &STEPS[2..12],
        ),
        judged(
            &row,
            &[2, 1, 0, 1, 0, 0, 2, 4, 0, 1, 1, 0, 2, 1, 0, 1, 5, 0],
            &STEPS,
        ),
        judged(&clear, &[0, 0, 0, 0, 0, 0, 2, 1, 0, 1, 0, 0], &[0, 0]),
    ])
}

// A model that is Found at its start: alone, in front of One, behind it, between One and Two, and all of these. It counts as written, at
// place 0, and the next goes where it would have gone without it. Last, an empty tray.
fn at_start() -> Tally {
    let tray =
        *b"\x08\x00\x4B\x02\x01\x01\x01\x01\x00\x01\x08\x00\xC8\x03\x03\x06\x00\x00\x00\x01\x00\x01\x01\x20\x03\x01\x03\x10\x02\x00\x08\x00";
    let outcomes =
        *b"\x02\x00\x00\x01\x00\x00\x02\x01\x00\x01\x00\x00\x02\x00\x00\x01\x00\x00\x02\x04\x00\x01\x01\x00\x02\x00\x00\x01\x00\x00";
    Tally::of(&[
        judged(&tray[0..2], &outcomes[0..6], &[]),
        judged(&tray[0..10], &outcomes[0..12], &STEPS[0..2]),
        judged(&tray[2..12], &outcomes[6..18], &STEPS[0..2]),
        judged(&tray[2..30], &outcomes[6..24], &STEPS[0..10]),
        judged(&tray, &outcomes, &STEPS[0..10]),
        judged(&[], &[], &[]),
    ])
}

// 41 records of a model that is Found at its start, two bytes each, and the outcomes of 32 of them.
const GOOD: [[u8; 2]; 41] = [[8, 0]; 41];

const FOUND: [[u8; 6]; 32] = [[2, 0, 0, 1, 0, 0]; 32];

// 32 such records are judged.
fn most() -> bool {
    let tray = &GOOD.as_flattened()[..64];
    let outcomes = FOUND.as_flattened();
    judged(tray, outcomes, &[]) && fits(tray, outcomes, &[])
}

// The first n bytes of such records are refused with this number.
fn many_refused(n: usize, list_size: usize, store_size: usize, answer: u8) -> bool {
    n <= 82 && refused(&GOOD.as_flattened()[..n], list_size, store_size, answer)
}

// What is refused comes in order: a bad record's number, be it behind 40 good ones, then 19, 20 and 7. 186 bytes and 191 have 31 places.
fn sizes() -> Tally {
    Tally::of(&[
        most(),
        fits(&[], &[], &[]),
        many_refused(81, LIST, STORE, 1),
        many_refused(81, 0, 0, 1),
        refused(b"\x08\x00\x00\x08\x00", 0, 0, 2),
        many_refused(66, LIST, STORE, 19),
        many_refused(82, LIST, STORE, 19),
        many_refused(66, 0, 0, 19),
        many_refused(64, 186, STORE, 20),
        many_refused(64, 191, STORE, 20),
        many_refused(64, 186, 0, 20),
        many_refused(2, 0, 0, 20),
        many_refused(64, 192, LEAST - 1, 7),
        many_refused(2, 6, LEAST - 1, 7),
        refused(&[], 0, LEAST - 1, 7),
    ])
}

// A case of a file: a tray with its length, the answer, the number of records, the outcome of each, and the steps with their length.
fn case(cases: &mut Cases) -> bool {
    let tray = cases.part();
    let answer = cases.byte();
    let count = usize::from(cases.byte());
    let outcomes = cases.bytes(6 * count);
    compare(tray, answer, outcomes, cases.part())
}

fn main(rt: HostRuntime) -> io::Result<()> {
    in_a_row().report(&rt, b"in a row")?;
    at_start().report(&rt, b"found at the start")?;
    sizes().report(&rt, b"sizes")?;
    let mut store = vec![in rt.alloc(); 0u8; 610000]?;
    vectors::file(&rt, "batches-1.bin", &mut store, case)?;
    vectors::file(&rt, "batches-2.bin", &mut store, case)
}
