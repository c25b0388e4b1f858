// Follows logs by hand and files of them, and compares: the last shared state and the rounds, or the refusal's number.
#![tactic(auto)]

use logs::Followed;
use model::{Model, Shared, ThreadId};
use std::io;
use vectors::{Cases, Tally};

// A model at K=1 with one rule in A and one in B, which always apply and change nothing; and with A's held.
const KEEP: [u8; 11] = *b"\xCA\x01\x00\x01\x02\x00\x00\x01\x02\x00\x00";

const KEEP_HELD: [u8; 20] =
    *b"\xCA\x01\x80\x04\x01\x00\x00\x00\x00\x00\x00\x00\x01\x02\x00\x00\x01\x02\x00\x00";

// A model whose A pushes 0 above one more 1.
const PUSH: [u8; 7] = *b"\x48\x01\x01\x06\x00\x00\x01";

// A log of a model gets this answer: the last shared state and the rounds, or a refusal's number.
fn answers(m: Model, log: &[u8], wanted: Result<Followed, u8>) -> bool {
    match logs::follow(m, log) {
        Ok(followed) => wanted == Ok(followed),
        Err(refusal) => wanted == Err(refusal.number()),
    }
}

// The log is accepted, with these.
fn accepts(bytes: &[u8], log: &[u8], last: u8, rounds: usize) -> bool {
    answers(vectors::model_of(bytes), log, Ok(followed(last, rounds)))
}

// It is refused with this number.
fn refuses(bytes: &[u8], log: &[u8], number: u8) -> bool {
    answers(vectors::model_of(bytes), log, Err(number))
}

// What is said of a log that is accepted.
fn followed(last: u8, rounds: usize) -> Followed {
    Followed {
        shared: Shared(last),
        rounds,
    }
}

// Logs of models One and Two: Two takes two rounds at K=1, too. Its A has three rules and its B one; a rule of another state does not
// apply, and neither does one of a thread whose stack is empty.
fn document() -> Tally {
    let (one, two, once) = (vectors::ONE, vectors::TWO, vectors::TWO_ONCE);
    Tally::of(&[
        accepts(&one, &[0], 1, 1),
        accepts(&two, &[], 0, 0),
        accepts(&two, &[0, 1, 128, 2], 3, 2),
        accepts(&once, &[0, 1, 128, 2], 3, 2),
        accepts(&two, &[1, 128], 2, 1),
        refuses(&two, &[1, 128, 2], 10),
        refuses(&two, &[2], 10),
        refuses(&two, &[3], 10),
        refuses(&two, &[63], 10),
        refuses(&two, &[128], 10),
        refuses(&two, &[0, 1, 129], 10),
    ])
}

// Rounds by threads: A and then B share a round, B and then A do not, and neither do two blocks of A. K does not limit them.
fn threads() -> Tally {
    Tally::of(&[
        accepts(&KEEP, &[], 0, 0),
        accepts(&KEEP, &[0], 0, 1),
        accepts(&KEEP, &[128], 0, 1),
        accepts(&KEEP, &[0, 128], 0, 1),
        accepts(&KEEP, &[128, 0], 0, 2),
        accepts(&KEEP, &[0, 128, 0], 0, 2),
        accepts(&KEEP, &[128, 0, 128], 0, 2),
        accepts(&KEEP, &[128, 0, 128, 0], 0, 3),
        accepts(&KEEP, &[0, 0, 128, 128, 0], 0, 2),
        accepts(&KEEP, &[0, 128, 0, 128, 0, 128, 0, 128, 0], 0, 5),
    ])
}

// A thread goes on after a held step: 12 where the other comes, be it by a rule that is not there, and at the log's end. Bit 6 comes
// first; in the same thread the next rule decides. The first byte changes no thread. The models are Two with A's first rule held, with
// A's second, and with B's only one, and the one that changes nothing.
fn held() -> Tally {
    let first =
        *b"\xC8\x83\x04\x01\x00\x00\x00\x00\x00\x00\x00\x03\x06\x00\x00\x00\x01\x00\x01\x01\x20\x03\x01\x03\x10\x02\x00";
    let second =
        *b"\xC8\x83\x04\x02\x00\x00\x00\x00\x00\x00\x00\x03\x06\x00\x00\x00\x01\x00\x01\x01\x20\x03\x01\x03\x10\x02\x00";
    let of_b =
        *b"\xC8\x83\x08\x01\x00\x00\x00\x00\x00\x00\x00\x03\x06\x00\x00\x00\x01\x00\x01\x01\x20\x03\x01\x03\x10\x02\x00";
    Tally::of(&[
        accepts(&first, &[0, 1, 128, 2], 3, 2),
        refuses(&first, &[0], 12),
        refuses(&first, &[0, 128], 12),
        refuses(&first, &[0, 191], 12),
        refuses(&first, &[0, 192], 18),
        refuses(&first, &[0, 3], 10),
        refuses(&second, &[0, 1], 12),
        refuses(&second, &[0, 1, 128, 2], 12),
        refuses(&of_b, &[0, 1, 128], 12),
        refuses(&of_b, &[0, 1, 128, 2], 12),
        accepts(&KEEP_HELD, &[128], 0, 1),
        refuses(&KEEP_HELD, &[128, 0, 0], 12),
    ])
}

// Bit 6, in A and in B, where it comes before 10 at one byte and after it at an earlier one; 4,095 bytes and 4,096, which come before any
// byte.
fn sizes() -> Tally {
    let zeros = [0u8; 4096];
    let threes = [3u8; 4096];
    Tally::of(&[
        refuses(&KEEP, &[64], 18),
        refuses(&KEEP, &[0, 192], 18),
        refuses(&KEEP, &[255], 18),
        refuses(&KEEP, &[1, 64], 10),
        accepts(&KEEP, &zeros[..4095], 0, 1),
        accepts(&KEEP, &[128; 4095], 0, 1),
        accepts(&PUSH, &zeros[..4095], 0, 1),
        refuses(&KEEP, &zeros, 18),
        refuses(&KEEP_HELD, &zeros[..4095], 12),
        refuses(&KEEP_HELD, &zeros, 18),
        refuses(&KEEP, &threes[..4095], 10),
        refuses(&KEEP, &threes, 18),
    ])
}

// A model handed in as values is refused with this number, before a byte with bit 6.
fn invalid(m: Model, number: u8) -> bool {
    answers(m, &[64], Err(number))
}

// So is the model of a record, with this count of A's rules. Those behind the record's own are blank.
// As in page_vectors and sequential_vectors: shared, it would be a public function more, with a contract and edits, no plainer than two lines.
fn counts_refused(bytes: &[u8], count: usize, number: u8) -> bool {
    let m = vectors::model_of(bytes);
    invalid(vectors::with(m, ThreadId::A, |a| a.count = count), number)
}

// So is the model that pushes, whose symbols are 0 and 1, with this symbol count of A.
fn symbols_refused(symbols: u8, number: u8) -> bool {
    let m = vectors::model_of(&PUSH);
    invalid(
        vectors::with(m, ThreadId::A, |a| a.symbols = symbols),
        number,
    )
}

// What is refused before the log is looked at: a model that is none (3), one with too many rules (4), with a rule that is not above the one
// before it (13), with an unlisted mark (11), with a symbol count out of range (3) or with a symbol at its count (17).
fn values() -> Tally {
    Tally::of(&[
        refuses(&[], &[64], 3),
        counts_refused(&vectors::TWO, 65, 4),
        counts_refused(&vectors::TWO, 4, 13),
        counts_refused(&vectors::TWO, 3, 18),
        counts_refused(&KEEP_HELD, 0, 11),
        symbols_refused(17, 3),
        symbols_refused(1, 17),
        symbols_refused(2, 18),
    ])
}

// A case of a file: a record and a log with their lengths, the answer, the last shared state, and the rounds in two bytes.
fn case(cases: &mut Cases) -> bool {
    let m = vectors::model_of(cases.part());
    let log = cases.part();
    let number = cases.byte();
    let last = cases.byte();
    let rounds = cases.number();
    let wanted = match number {
        0 => Ok(followed(last, rounds)),
        _ => Err(number),
    };
    answers(m, log, wanted)
}

// The file of the longest has logs that change the thread at every byte, from A on and from B on: 4,094, 4,095 and 4,096 bytes.
fn main(rt: HostRuntime) -> io::Result<()> {
    document().report(&rt, b"document 01")?;
    threads().report(&rt, b"rounds by threads")?;
    held().report(&rt, b"held rules")?;
    sizes().report(&rt, b"bit 6 and sizes")?;
    values().report(&rt, b"models as values")?;
    let mut store = [0u8; 130000];
    vectors::file(&rt, "longest.bin", &mut store, case)?;
    vectors::file(&rt, "logs.bin", &mut store, case)
}
