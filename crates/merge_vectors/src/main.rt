// Merges models made by hand and pairs of records from files, and compares: the answer, the record of both, and what the store keeps.
#![tactic(auto)]

use model::{Model, Refusal, ThreadId};
use std::io;
use vectors::{Cases, KEPT, Tally};

// Model Two with A's rule 2 held, and Two without that rule.
const HELD_TWO: [u8; 27] =
    *b"\xC8\x83\x04\x04\x00\x00\x00\x00\x00\x00\x00\x03\x06\x00\x00\x00\x01\x00\x01\x01\x20\x03\x01\x03\x10\x02\x00";

const LESS_TWO: [u8; 15] = *b"\xC8\x03\x02\x06\x00\x00\x00\x01\x00\x01\x01\x03\x10\x02\x00";

// Symbol 1 in a rule of A.
const USES_ONE: [u8; 5] = *b"\x48\x03\x01\x00\x01";

// What two models come to: a refusal, or the record of both at the front of the store.
fn make(m: Model, n: Model, store: &mut [u8]) -> Result<usize, Refusal> {
    record::write(merge::merge(m, n)?, store)
}

// The same of two records, the first of which is read first.
fn make_read(first: &[u8], second: &[u8], store: &mut [u8]) -> Result<usize, Refusal> {
    let m = record::read(first)?;
    make(m, record::read(second)?, store)
}

// Two records come to this; and where a model is made, so they do the other way round.
fn agrees(first: &[u8], second: &[u8], answer: u8, whole: &[u8]) -> bool {
    vectors::puts_tightly::<700, _>(|store| make_read(first, second, store), answer, whole)
        && (answer != 0
            || vectors::puts(
                &|store| make_read(second, first, store),
                0,
                whole,
                &mut [KEPT; 700],
            ))
}

// Two models handed in as values come to this record.
fn makes(m: Model, n: Model, whole: &[u8]) -> bool {
    vectors::puts(&|store| make(m, n, store), 0, whole, &mut [KEPT; 700])
}

// Two models handed in as values are refused by this number.
fn refuses(m: Model, n: Model, answer: u8) -> bool {
    vectors::number(merge::merge(m, n)) == answer
}

// The model of a record, with this count of A's rules. Those behind the record's own are blank, and those from the count on are unused.
fn counting(bytes: &[u8], count: usize) -> Model {
    vectors::with(vectors::model_of(bytes), ThreadId::A, |a| a.count = count)
}

// The model of a record, with this count of A's symbols.
fn limited(bytes: &[u8], symbols: u8) -> Model {
    vectors::with(
        vectors::model_of(bytes),
        ThreadId::A,
        |a| a.symbols = symbols,
    )
}

// Models that no record gives: what is in unused places is not looked at; and each model's own faults, 3, 4, 13, 11 and 17, come before 14,
// the first model's before the second's.
fn values() -> Tally {
    let two = counting(&vectors::TWO, 3);
    let less = counting(&vectors::TWO, 2);
    let one = counting(&vectors::ONE, 1);
    let blank = counting(&[], 0);
    let many = counting(&vectors::TWO, 65);
    let twice = counting(&vectors::TWO, 4);
    let unlisted = counting(&HELD_TWO, 2);
    let none = limited(&vectors::TWO, 0);
    let over = limited(&vectors::TWO, 17);
    let above = limited(&USES_ONE, 1);
    Tally::of(&[
        makes(two, less, &vectors::TWO),
        makes(less, two, &vectors::TWO),
        makes(less, less, &LESS_TWO),
        refuses(two, one, 14),
        refuses(blank, two, 3),
        refuses(two, blank, 3),
        refuses(many, blank, 4),
        refuses(one, many, 4),
        refuses(twice, many, 13),
        refuses(one, twice, 13),
        refuses(unlisted, twice, 11),
        refuses(one, unlisted, 11),
        refuses(none, above, 3),
        refuses(two, over, 3),
        refuses(above, blank, 17),
        refuses(two, above, 17),
    ])
}

// A case of a file: two records with their lengths, the answer, and the record of both with its length.
fn case(cases: &mut Cases) -> bool {
    let first = cases.part();
    let second = cases.part();
    let answer = cases.byte();
    agrees(first, second, answer, cases.part())
}

// cases.bin has the pairs of bindings/cases.txt, and merges.bin random ones.
fn main(rt: HostRuntime) -> io::Result<()> {
    values().report(&rt, b"values")?;
    let mut store = [0u8; 210000];
    vectors::file(&rt, "cases.bin", &mut store, case)?;
    vectors::file(&rt, "merges.bin", &mut store, case)
}
