// Fills the line tables of document 01's models, and compares. Random models are compared where they are judged.
#![tactic(auto)]

use model::{Model, Refusal};
use std::io;
use vectors::Tally;

// What every byte of a store holds before a call.
const KEPT: u8 = 170;

// A model whose line table is known: a store one byte short is refused and left as it was, a longer one gets the table and
// keeps the bytes past it.
fn fills(m: Model, table: &[u8], store: &mut [u8]) -> bool {
    let n = table.len();
    if n == 0 || store.len() <= n {
        return false;
    }
    reach::lines(m, &mut store[..n - 1]) == Err(Refusal::Store)
        && vectors::filled(store, KEPT)
        && reach::lines(m, store).is_ok()
        && vectors::holds(store, table, KEPT)
}

// The model that a record holds has this line table.
fn agrees(bytes: &[u8], table: &[u8]) -> bool {
    fills(vectors::model_of(bytes), table, &mut [KEPT; 700])
}

// A model with a fault in its head is refused by 3, and the store is left as it was.
fn faulty() -> bool {
    let mut store = [KEPT; 700];
    reach::lines(model::zero_model(), &mut store) == Err(Refusal::Head)
        && vectors::filled(&store, KEPT)
}

// Model One, model Two at K=1, a model with G=1 and K=3, and one with a fault.
fn document() -> Tally {
    Tally::of(&[
        agrees(&vectors::ONE, b"\x27"),
        agrees(&vectors::TWO_ONCE, b"\x13\x06\x00"),
        agrees(b"\x0B\x01\x03\x00", b"\x3F"),
        faulty(),
    ])
}

// Tops move no line: One with a top of A, and Two at K=1 with both.
fn tops() -> Tally {
    Tally::of(&[
        agrees(b"\x4B\x02\x01\x81\x01\x00\x01\x01\x00\x01", b"\x27"),
        agrees(
            b"\xCA\x01\x83\x03\x01\x02\x03\x06\x00\x00\x00\x01\x00\x01\x01\x20\x03\x01\x03\x10\x02\x00",
            b"\x13\x06\x00",
        ),
    ])
}

// No turn ends after a held step: One with its rule held; Two at K=1 with A's rule 1 held; and A through state 1 inside a held stretch.
fn held() -> Tally {
    Tally::of(&[
        agrees(
            b"\x4B\x02\x01\x81\x04\x01\x00\x00\x00\x00\x00\x00\x00\x01\x01\x00\x01",
            b"\x05",
        ),
        agrees(
            b"\xCA\x01\x83\x04\x02\x00\x00\x00\x00\x00\x00\x00\
              \x03\x06\x00\x00\x00\x01\x00\x01\x01\x20\x03\x01\x03\x10\x02\x00",
            b"\x11\x00\x00",
        ),
        agrees(
            b"\x4B\x02\x01\x81\x04\x01\x00\x00\x00\x00\x00\x00\x00\x02\x03\x00\x01\x00\x03\x10\x00\x01",
            b"\x05",
        ),
    ])
}

fn main(rt: HostRuntime) -> io::Result<()> {
    document().report(&rt, b"document 01")?;
    tops().report(&rt, b"tops")?;
    held().report(&rt, b"held rules")
}
