// Makes pages by hand and of a file of random schedules, and compares: the answer, the page, and what the store keeps.
#![tactic(auto)]

use model::{Model, ThreadId};
use std::io;
use std::rt::Files;
use vectors::{Cases, KEPT, Tally};

// A model whose A pushes at every step: 0 comes above one more 1.
const DEEP: [u8; 7] = *b"\x48\x01\x01\x06\x00\x00\x01";

// The same of B.
const DEEP_B: [u8; 9] = *b"\x88\x01\x02\x00\x00\x06\x00\x00\x01";

// Model One with its rule held, so that no turn may end after it.
const HELD_ONE: [u8; 17] = *b"\x4B\x02\x01\x81\x04\x01\x00\x00\x00\x00\x00\x00\x00\x01\x01\x00\x01";

// The length of the page of 4,095 steps, its last line of a step, and its foot.
const LONGEST: usize = 299008;

const LAST_STEP: [u8; 73] =
    *b"4095 0 A  0 0 0111111111111111111111111111 0                           +\n";

const LAST_FOOT: [u8; 73] =
    *b"4095 1 4095 0                                                           \n";

// A schedule of the model that a record holds gets this answer and this page, with stores that have room and, where a page is made, with
// tight ones.
fn agrees(bytes: &[u8], schedule: &[u8], answer: u8, page: &[u8]) -> bool {
    let m = vectors::model_of(bytes);
    vectors::puts_tightly::<4500, _>(|store| page::page(m, schedule, store), answer, page)
}

// It is refused, and the store keeps every byte.
fn refuses(bytes: &[u8], schedule: &[u8], answer: u8, store: &mut [u8]) -> bool {
    let m = vectors::model_of(bytes);
    vectors::puts(&|store| page::page(m, schedule, store), answer, &[], store)
}

// The page of a schedule is that of a text file.
fn looks(
    rt: &(impl Files + Eprint),
    bytes: &[u8],
    schedule: &[u8],
    path: &[u8],
    store: &mut [u8],
) -> bool {
    agrees(bytes, schedule, 0, vectors::load(rt, path, store))
}

// Document 01's models; stacks of up to 29 symbols, 0 above 1s, in A and in B.
fn by_hand(rt: &(impl Files + Eprint)) -> Tally {
    let mut store = [0u8; 4500];
    Tally::of(&[
        looks(rt, &vectors::ONE, &[0, 0], b"one.txt", &mut store),
        looks(
            rt,
            &vectors::TWO,
            &[0, 0, 0, 1, 1, 0, 2, 2],
            b"two.txt",
            &mut store,
        ),
        looks(rt, &vectors::TWO, &[], b"none.txt", &mut store),
        looks(rt, &DEEP, &[0; 56], b"deep_a.txt", &mut store),
        looks(rt, &DEEP_B, &[1; 56], b"deep_b.txt", &mut store),
    ])
}

// A model handed in as values is refused with this number.
fn invalid(m: Model, number: u8) -> bool {
    vectors::number(page::page(m, &[0], &mut [])) == number
}

// So is the model of a record, with this count of A's rules. Those behind the record's own are blank.
// As in log_vectors and sequential_vectors: shared, it would be a public function more, with a contract and edits, no plainer than two lines.
fn counts_refused(bytes: &[u8], count: usize, number: u8) -> bool {
    let m = vectors::model_of(bytes);
    invalid(vectors::with(m, ThreadId::A, |a| a.count = count), number)
}

// So is the model with deep stacks, whose symbols are 0 and 1, with this symbol count of A.
fn symbols_refused(symbols: u8, number: u8) -> bool {
    let m = vectors::model_of(&DEEP);
    invalid(
        vectors::with(m, ThreadId::A, |a| a.symbols = symbols),
        number,
    )
}

// What is refused before 7: a model that is none (3), one with too many rules (4), with a rule that is not above the one before it (13),
// with an unlisted mark (11), with a symbol count out of range (3) or with a symbol at its count (17), and what replay refuses.
fn refused() -> Tally {
    Tally::of(&[
        refuses(&[], &[0], 3, &mut []),
        counts_refused(&vectors::TWO, 65, 4),
        counts_refused(&vectors::TWO, 4, 13),
        counts_refused(&HELD_ONE, 0, 11),
        symbols_refused(17, 3),
        symbols_refused(1, 17),
        refuses(&vectors::TWO, &[0], 8, &mut []),
        refuses(&vectors::TWO, &[0; 8192], 8, &mut []),
        refuses(&vectors::TWO, &[4, 0], 9, &mut []),
        refuses(&vectors::TWO_ONCE, &[2, 0], 9, &mut []),
        refuses(&HELD_ONE, &[0, 0], 12, &mut []),
        refuses(&HELD_ONE, &[0, 0, 1, 9], 12, &mut []),
        refuses(&vectors::TWO, &[0, 2], 10, &mut []),
        refuses(&vectors::TWO, &[], 7, &mut []),
    ])
}

// The page of the longest schedule: its length and its last two lines. The store keeps what is past it.
fn longest(store: &mut [u8]) -> bool {
    page::page(vectors::model_of(&DEEP), &[0; 8190], store) == Ok(LONGEST)
        && part_is(store, LONGEST - 146, &LAST_STEP)
        && part_is(store, LONGEST - 73, &LAST_FOOT)
        && part_is(store, LONGEST, &[KEPT])
}

// That page, and 7 for a store with one byte less.
fn at_length() -> Tally {
    Tally::of(&[
        longest(&mut [KEPT; LONGEST + 1]),
        refuses(&DEEP, &[0; 8190], 7, &mut [KEPT; LONGEST - 1]),
    ])
}

// A store has these bytes at a place.
fn part_is(store: &[u8], at: usize, bytes: &[u8]) -> bool {
    at <= store.len() && store[at..].starts_with(bytes)
}

// A case of the file: a record and a schedule with their lengths, the answer, and the page with its length in four bytes.
fn case(cases: &mut Cases) -> bool {
    let bytes = cases.part();
    let schedule = cases.part();
    let answer = cases.byte();
    agrees(bytes, schedule, answer, cases.long_part())
}

fn main(rt: HostRuntime) -> io::Result<()> {
    by_hand(&rt).report(&rt, b"by hand")?;
    refused().report(&rt, b"refused")?;
    at_length().report(&rt, b"longest schedule")?;
    vectors::file(&rt, "pages.bin", &mut [0u8; 410000], case)
}
