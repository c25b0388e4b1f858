// Prints the rules of models by hand and of files of random ones, and compares: the answer, the text, and what the store keeps.
#![tactic(auto)]

use model::{Model, ThreadId};
use std::io;
use vectors::{Cases, KEPT, Tally};

// Room for the longest text that is compared, and more.
const ROOM: usize = 240000;

// Model One with its rule held.
const HELD_ONE: [u8; 17] = *b"\x4B\x02\x01\x81\x04\x01\x00\x00\x00\x00\x00\x00\x00\x01\x01\x00\x01";

// A model whose A pushes at every step.
const PUSH: [u8; 7] = *b"\x48\x01\x01\x06\x00\x00\x01";

// The text of a record's model has so many bytes.
fn sized(bytes: &[u8], length: usize) -> bool {
    sequential::print(vectors::model_of(bytes), &mut [KEPT; ROOM]) == Ok(length)
}

// Models One, Two, Two at K=1, and the one without rules whose record is `08 00`.
fn sizes() -> Tally {
    Tally::of(&[
        sized(&vectors::ONE, 1794),
        sized(&[8, 0], 23792),
        sized(&vectors::TWO, 24176),
        sized(&vectors::TWO_ONCE, 3612),
    ])
}

// A model handed in as values is refused with this number.
fn invalid(m: Model, number: u8) -> bool {
    vectors::number(sequential::print(m, &mut [])) == number
}

// So is the model whose one rule is held, with this count of A's rules. The rules behind that one are blank.
// As in page_vectors and log_vectors: shared, it would be a public function more, with a contract and edits, no plainer than two lines.
fn held_refused(count: usize, number: u8) -> bool {
    let m = vectors::model_of(&HELD_ONE);
    invalid(vectors::with(m, ThreadId::A, |a| a.count = count), number)
}

// So is the model that pushes, whose symbols are 0 and 1, with this symbol count of A.
fn symbols_refused(symbols: u8, number: u8) -> bool {
    let m = vectors::model_of(&PUSH);
    invalid(
        vectors::with(m, ThreadId::A, |a| a.symbols = symbols),
        number,
    )
}

// What is refused, in order: a model that is none (3), one with too many rules (4), with a rule that is not above the one before it (13),
// with an unlisted mark (11), with a symbol count out of range (3) or a symbol at its count (17), with a held rule (21); and then a short
// store (7).
fn refused() -> Tally {
    Tally::of(&[
        invalid(model::zero_model(), 3),
        held_refused(65, 4),
        held_refused(2, 13),
        held_refused(0, 11),
        symbols_refused(17, 3),
        symbols_refused(1, 17),
        held_refused(1, 21),
        symbols_refused(2, 7),
        invalid(vectors::model_of(&vectors::TWO), 7),
    ])
}

// A case of a file: a record with its length, the answer, and the text with its length in four bytes.
fn case(cases: &mut Cases) -> bool {
    let m = vectors::model_of(cases.part());
    let answer = cases.byte();
    let text = cases.long_part();
    vectors::puts_tightly::<ROOM, _>(|store| sequential::print(m, store), answer, text)
}

fn main(rt: HostRuntime) -> io::Result<()> {
    sizes().report(&rt, b"sizes")?;
    refused().report(&rt, b"refused")?;
    let mut store = vec![in rt.alloc(); 0u8; 600000]?;
    for name in [
        "onestack1.bin",
        "onestack2.bin",
        "onestack3.bin",
        "onestack4.bin",
    ] {
        vectors::file(&rt, name, &mut store, case)?;
    }
    Ok(())
}
