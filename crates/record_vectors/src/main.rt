// Runs document 01's records and a file of random ones through the reader and the writer, and compares.
#![tactic(auto)]

use model::{Model, Refusal};
use std::io;
use vectors::{Cases, Tally};

// What every byte of a store holds before a call.
const KEPT: u8 = 170;

// A model whose record is known: it is written byte for byte, the bytes past it are kept, it is read again, and a store one
// byte short is refused and left as it was.
fn rewritten(m: Model, bytes: &[u8], store: &mut [u8]) -> bool {
    let n = bytes.len();
    if n == 0 || store.len() <= n {
        return false;
    }
    record::write(m, &mut store[..n - 1]) == Err(Refusal::Store)
        && vectors::filled(store, KEPT)
        && record::write(m, store) == Ok(n)
        && vectors::holds(store, bytes, KEPT)
        && record::read(&store[..n]).is_ok()
}

// A record gets this answer, and where that is 0 it survives.
fn agrees(bytes: &[u8], answer: u8) -> bool {
    let reading = record::read(bytes);
    if vectors::number(reading) != answer {
        return false;
    }
    match reading {
        Ok(m) => rewritten(m, bytes, &mut [KEPT; 700]),
        Err(_) => true,
    }
}

// The records of document 01: model One and Two, those of rows 1 to 6, the empty one.
fn document() -> Tally {
    Tally::of(&[
        agrees(&vectors::ONE, 0),
        agrees(&vectors::TWO, 0),
        agrees(b"\x08\x00", 0),
        agrees(&[], 1),
        agrees(b"\x4B\x02", 1),
        agrees(b"\x00", 2),
        agrees(b"\x09\x05\x00", 3),
        agrees(b"\x48\x00\x01\x08\x00", 4),
        agrees(b"\x09\x04\x00", 5),
        agrees(b"\x08\x00\x00", 6),
        agrees(b"\x48\x00\x01\x08", 4),
        agrees(b"\x09\x04", 5),
    ])
}

// What document 02 says of second maps: tops named for A, for B and for both, and each refusal in its order.
fn second_maps() -> Tally {
    Tally::of(&[
        agrees(b"\x08\x80\x01\x05", 0),
        agrees(b"\x08\x83\x02\x00", 0),
        agrees(b"\x38\x81\x03\x05\x0F\x01\x02", 0),
        agrees(b"\x08\x80", 1),
        agrees(b"\x08\x80\x00", 5),
        agrees(b"\x08\x80\x40", 3),
        agrees(b"\x08\x80\x81\x05", 3),
        agrees(b"\x08\x84\x00", 3),
        agrees(b"\x08\x80\x01", 1),
        agrees(b"\x08\x80\x01\x10", 3),
        agrees(b"\x08\x80\x03\x05", 1),
        agrees(b"\x08\x80\x03\x05\x10", 3),
        agrees(b"\x08\x80\x01\x05\x00", 6),
    ])
}

// A case of a file: a record with its length, and its answer.
fn case(cases: &mut Cases) -> bool {
    let bytes = cases.part();
    agrees(bytes, cases.byte())
}

// counts.bin has lists of 0, 64 and 65 rules. held.bin has what document 02 says of held rules: marks for A, for B and for both, and each
// refusal in its order. order.bin has the records of bindings/cases.txt that are about the order of rules, and symbols.bin those that are
// about symbol counts. longest.bin has the longest record, of 670 bytes, and the same with a byte less, with one more, and with its last
// symbol at the count.
fn main(rt: HostRuntime) -> io::Result<()> {
    document().report(&rt, b"document 01")?;
    second_maps().report(&rt, b"second maps")?;
    let mut store = [0u8; 100000];
    for name in [
        "counts.bin",
        "held.bin",
        "order.bin",
        "symbols.bin",
        "longest.bin",
        "records.bin",
    ] {
        vectors::file(&rt, name, &mut store, case)?;
    }
    Ok(())
}
