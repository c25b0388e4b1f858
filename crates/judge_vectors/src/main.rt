// Judges document 01's models, some with tops and some with held rules, ties, the longest and deepest ones we know and files of random ones,
// and compares: verdict, steps, depths, line table, and every byte of the schedule store.
#![tactic(auto)]

use judge::Verdict;
use model::{Depths, Model, Symbol, Thread, ThreadId};
use std::io;
use vectors::{Cases, Tally};

mod compare;

// The least schedules of model Two, and of Two with one more push.
const TWO_STEPS: [u8; 8] = [0, 0, 0, 1, 1, 0, 2, 2];

const PUSHED: [u8; 10] = [0, 0, 0, 0, 0, 1, 1, 0, 2, 2];

// A model with 64 rules in A, which remove every symbol in every state. The target is state 1.
const MANY: [u8; 131] = *b"\x48\x01\x40\
      \x00\x00\x00\x01\x00\x02\x00\x03\x00\x04\x00\x05\x00\x06\x00\x07\x00\x08\x00\x09\x00\x0A\x00\x0B\
      \x00\x0C\x00\x0D\x00\x0E\x00\x0F\x00\x10\x00\x11\x00\x12\x00\x13\x00\x14\x00\x15\x00\x16\x00\x17\
      \x00\x18\x00\x19\x00\x1A\x00\x1B\x00\x1C\x00\x1D\x00\x1E\x00\x1F\x00\x20\x00\x21\x00\x22\x00\x23\
      \x00\x24\x00\x25\x00\x26\x00\x27\x00\x28\x00\x29\x00\x2A\x00\x2B\x00\x2C\x00\x2D\x00\x2E\x00\x2F\
      \x00\x30\x00\x31\x00\x32\x00\x33\x00\x34\x00\x35\x00\x36\x00\x37\x00\x38\x00\x39\x00\x3A\x00\x3B\
      \x00\x3C\x00\x3D\x00\x3E\x00\x3F";

// The model that a record holds is Clear.
fn clear(bytes: &[u8]) -> bool {
    compare::agrees(bytes, Verdict::Clear, &[], &[])
}

// It is Found with these depths of A and B and this least schedule.
fn found(bytes: &[u8], a: usize, b: usize, least: &[u8]) -> bool {
    compare::agrees(bytes, compare::found(a, b, least), &[], least)
}

// The models of document 01. Without its first rule, Two's thread A has an empty stack after its step.
fn document() -> Tally {
    Tally::of(&[
        compare::agrees(
            &vectors::ONE,
            compare::found(1, 1, &[0, 0]),
            b"\x27",
            &[0, 0],
        ),
        found(&vectors::TWO, 2, 1, &TWO_STEPS),
        compare::agrees(&vectors::TWO_ONCE, Verdict::Clear, b"\x13\x06\x00", &[]),
        clear(b"\xCA\x01\x03\x02\x01\x00\x01\x01\x20\x03\x01\x03\x10\x02\x00"),
        clear(b"\xC8\x03\x02\x01\x00\x01\x01\x20\x03\x01\x03\x10\x02\x00"),
        clear(b"\xCA\x03\x03\x02\x01\x00\x01\x01\x20\x03\x01\x03\x10\x02\x00"),
        found(b"\x08\x00", 1, 1, &[]),
    ])
}

// Tops: the start has it or not; One's A has an empty stack after its step, which moves no line; Two's A needs one more push, and B none; a
// top that removing what lies above it brings.
fn tops() -> Tally {
    Tally::of(&[
        found(b"\x08\x80\x01\x00", 1, 1, &[]),
        clear(b"\x08\x80\x01\x01"),
        compare::agrees(
            b"\x4B\x02\x01\x81\x01\x00\x01\x01\x00\x01",
            Verdict::Clear,
            b"\x27",
            &[],
        ),
        found(
            b"\xC8\x83\x01\x00\x03\x06\x00\x00\x00\x01\x00\x01\x01\x20\x03\x01\x03\x10\x02\x00",
            3,
            1,
            &PUSHED,
        ),
        found(
            b"\xC8\x83\x02\x00\x03\x06\x00\x00\x00\x01\x00\x01\x01\x20\x03\x01\x03\x10\x02\x00",
            2,
            1,
            &TWO_STEPS,
        ),
        found(
            b"\x88\x81\x02\x00\x02\x07\x00\x01\x01\x00\x00\x11",
            1,
            2,
            &[1, 0, 1, 1],
        ),
    ])
}

// Held rules in one thread: One's rule, which empties the stack; and a target that is passed inside a held stretch alone.
fn held_in_one() -> Tally {
    Tally::of(&[
        compare::agrees(
            b"\x4B\x02\x01\x81\x04\x01\x00\x00\x00\x00\x00\x00\x00\x01\x01\x00\x01",
            Verdict::Clear,
            b"\x05",
            &[],
        ),
        compare::agrees(
            b"\x4B\x02\x01\x81\x04\x01\x00\x00\x00\x00\x00\x00\x00\x02\x03\x00\x01\x00\x03\x10\x00\x01",
            Verdict::Clear,
            b"\x05",
            &[],
        ),
    ])
}

// Held rules of Two: A's rule 0, which needs no other step; A's rule 1 and B's rule, after which no step comes; rules of both threads, where
// B makes a step more; and a top besides.
fn held_in_two() -> Tally {
    Tally::of(&[
        found(
            b"\xC8\x83\x04\x01\x00\x00\x00\x00\x00\x00\x00\
              \x03\x06\x00\x00\x00\x01\x00\x01\x01\x20\x03\x01\x03\x10\x02\x00",
            2,
            1,
            &TWO_STEPS,
        ),
        clear(
            b"\xC8\x83\x04\x02\x00\x00\x00\x00\x00\x00\x00\
              \x03\x06\x00\x00\x00\x01\x00\x01\x01\x20\x03\x01\x03\x10\x02\x00",
        ),
        clear(
            b"\xC8\x83\x08\x01\x00\x00\x00\x00\x00\x00\x00\
              \x03\x06\x00\x00\x00\x01\x00\x01\x01\x20\x03\x01\x03\x10\x02\x00",
        ),
        found(
            b"\xC8\x83\x0C\x01\x00\x00\x00\x00\x00\x00\x00\x01\x00\x00\x00\x00\x00\x00\x00\
              \x03\x06\x00\x00\x00\x01\x00\x01\x01\x20\x03\x02\x03\x10\x02\x00\x02\x20\x00",
            2,
            1,
            &[0, 0, 0, 1, 1, 0, 1, 1, 2, 2],
        ),
        found(
            b"\xC8\x83\x05\x00\x01\x00\x00\x00\x00\x00\x00\x00\
              \x03\x06\x00\x00\x00\x01\x00\x01\x01\x20\x03\x01\x03\x10\x02\x00",
            3,
            1,
            &PUSHED,
        ),
    ])
}

// Depths: both stacks grow, B's more; B's grows, shrinks and grows again; and two shortest schedules with unlike depths, of which the first
// counts.
fn depths() -> Tally {
    Tally::of(&[
        found(
            b"\xC8\x03\x01\x07\x00\x01\x00\x00\x02\x07\x10\x02\x00\x00\x07\x20\x03\x00\x00",
            2,
            3,
            &[0, 0, 1, 0, 1, 1],
        ),
        found(
            b"\x88\x03\x03\x07\x00\x01\x00\x00\x01\x10\x02\x07\x20\x03\x00\x00",
            1,
            2,
            &[1, 0, 1, 1, 1, 2],
        ),
        found(
            b"\x48\x01\x02\x03\x00\x01\x00\x07\x00\x01\x00\x00",
            1,
            1,
            &[0, 0],
        ),
    ])
}

// Stores of just the size needed, and one byte less; and a model with 64 rules.
fn stores() -> Tally {
    let long = b"\xCA\x03\x03\x02\x01\x00\x01\x01\x20\x03\x01\x03\x10\x02\x00";
    Tally::of(&[
        compare::fits(
            &vectors::TWO,
            compare::found(2, 1, &TWO_STEPS),
            &TWO_STEPS,
            43,
        ),
        compare::fits(&vectors::TWO_ONCE, Verdict::Clear, &[], 3),
        compare::fits(long, Verdict::Clear, &[], 683),
        clear(&MANY),
    ])
}

// A model with a change of A, or of B, is refused by this number.
fn refuses<F: FnOnce(&mut Thread)>(m: Model, id: ThreadId, change: F, number: u8) -> bool
    requires { F.IsAlwaysCallable change }
{
    compare::refuses(vectors::with(m, id, change), number)
}

// Models that no record holds: a thread with 65 rules, a top that is no symbol, a mark on rule 63 of a thread with fewer rules, a symbol
// count of 0 and of 17, a symbol at the count, in A's rules, as B's top and beside such a mark, and a last rule that is below the one
// before it, in A, in B, and beside such a mark: Two with one rule more, which is blank; and no states at all.
fn counts() -> Tally {
    let (a, b) = (ThreadId::A, ThreadId::B);
    let m = vectors::model_of(&MANY);
    let two = vectors::model_of(&vectors::TWO);
    let marked = vectors::with(m, b, |t| t.held[7] = 128);
    let two_marked = vectors::with(two, b, |t| t.held[7] = 128);
    Tally::of(&[
        refuses(m, a, |t| t.count = 65, 4),
        refuses(m, b, |t| t.count = 65, 4),
        refuses(m, a, |t| t.top = Some(Symbol(16)), 3),
        refuses(m, b, |t| t.top = Some(Symbol(16)), 3),
        refuses(
            vectors::with(m, a, |t| t.held[7] = 128),
            a,
            |t| t.count = 63,
            11,
        ),
        compare::refuses(marked, 11),
        refuses(m, a, |t| t.symbols = 0, 3),
        refuses(m, b, |t| t.symbols = 17, 3),
        refuses(m, a, |t| t.symbols = 15, 17),
        refuses(
            vectors::with(m, b, |t| t.top = Some(Symbol(5))),
            b,
            |t| t.symbols = 5,
            17,
        ),
        refuses(marked, a, |t| t.symbols = 15, 11),
        refuses(two, a, |t| t.count = 4, 13),
        refuses(two, b, |t| t.count = 2, 13),
        refuses(two_marked, a, |t| t.count = 4, 13),
        compare::refuses(model::zero_model(), 3),
    ])
}

// The verdict that a file's number of a kind stands for, Found with these steps and depths.
fn verdict(kind: u8, steps: usize, depths: Depths) -> Option<Verdict> {
    match kind {
        0 => Some(Verdict::Clear),
        1 => Some(Verdict::Long),
        2 => Some(Verdict::Found(steps as u64, depths)),
        _ => None,
    }
}

// A case of a file: a record with its length, its verdict, its steps in two bytes, the line table with its length, the depths of A and B in
// two bytes each, and the least schedule with its length.
fn case(cases: &mut Cases) -> bool {
    let bytes = cases.part();
    let kind = cases.byte();
    let steps = cases.number();
    let table = cases.part();
    let a = cases.number();
    let b = cases.number();
    let least = cases.part();
    match verdict(kind, steps, Depths { a, b }) {
        Some(verdict) => compare::agrees(bytes, verdict, table, least),
        None => false,
    }
}

// The files: the models of bindings/cases.txt with tops, and those that double their steps, nest deepest and take longest; models with
// several shortest schedules; then random ones.
const FILES: [&str; 6] = [
    "tops.bin",
    "deep.bin",
    "ties.bin",
    "verdicts-1.bin",
    "verdicts-2.bin",
    "verdicts-3.bin",
];

fn main(rt: HostRuntime) -> io::Result<()> {
    document().report(&rt, b"document 01")?;
    tops().report(&rt, b"tops")?;
    held_in_one().and(held_in_two()).report(&rt, b"held rules")?;
    depths().report(&rt, b"depths")?;
    stores().and(counts()).report(&rt, b"stores and counts")?;
    let mut store = vec![in rt.alloc(); 0u8; 610000]?;
    for name in FILES {
        vectors::file(&rt, name, &mut store, case)?;
    }
    Ok(())
}
