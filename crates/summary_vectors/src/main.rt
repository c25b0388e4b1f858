// Closes tables of threads and compares their counts with known ones: those of the doubling thread and of one with held rules one by
// one, and the sum of all cells of a dense thread with a stored one. No top is named.
#![tactic(auto)]

ghost use Rattle.std.specs.Prelude.{◌<◌};
ghost use Rattle.summary_vectors.specs.Solved.{FirstSolved};

use std::io;
use std::rt::Files;
use summary::cells::{SIZE, second_of, size_of};
use summary::pushdown::Pushdown;
use summary::{CAP, UNREACHED};
use vectors::Tally;

// The count at a cell.
fn count_at(t: &[u16], k: usize) -> u16 {
    t.get(k).copied().unwrap_or(0)
}

// The steps after which symbol s is gone, where each symbol but 0 becomes two of the one below it: 2^(s+1) − 1, capped.
fn doubled(s: usize) -> u16 {
    let mut steps: u16 = 1;
    for _ in 0..s {
        if 2048 <= steps {
            return CAP;
        }
        steps = 2 * steps + 1;
    }
    steps
}

// Symbols 0 to 12 of the doubling thread, and 13, which no rule takes.
fn compared(t: &[u16]) -> Tally {
    let mut tally = Tally::new();
    for s in 0..13 {
        tally = tally.counted(count_at(t, 16 * s) == doubled(s));
    }
    tally.counted(count_at(t, 208) == UNREACHED)
}

// The sum of some cells.
fn total(cells: &[u16]) -> u64 {
    cells
        .iter()
        .fold(0, |sum: u64, count| sum.wrapping_add(u64::from(*count)))
}

// The sum of the last part of the table over all first turn ends that leave a turn at o.
fn slices_from(t: &mut [u16; SIZE], system: &Pushdown, o: usize) -> u64
    requires state { o < system.now.g }
    requires solved { FirstSolved system.now t.old }
    ensures { FirstSolved system.now t.new }
{
    let controls = system.shape.controls;
    let from = second_of(controls);
    let to = size_of(controls);
    let mut sum = 0u64;
    for i in 0..system.g {
        system.close_second(t, o, i);
        sum = sum.wrapping_add(total(&t[from..to]));
    }
    sum
}

// The same over all first turn ends.
fn slices(t: &mut [u16; SIZE], system: &Pushdown) -> u64
    requires { FirstSolved system.now t.old }
{
    let mut sum = 0u64;
    for o in 0..system.g {
        sum = sum.wrapping_add(slices_from(t, system, o));
    }
    sum
}

// The sum of all tables of a system.
fn whole(t: &mut [u16; SIZE], system: &Pushdown) -> u64 {
    system.close_plain(t);
    system.close_first(t);
    let sum = total(&t[..second_of(system.shape.controls)]);
    sum.wrapping_add(slices(t, system))
}

// Compares the plain table of a record's thread A, if the record is accepted.
fn closed<F: FnOnce(&[u16]) -> Tally>(t: &mut [u16; SIZE], bytes: &[u8], compare: F) -> Tally
    requires { F.IsAlwaysCallable compare }
{
    match record::read(bytes) {
        Ok(m) => {
            Pushdown::new(m.a, m.g as usize, None).close_plain(t);
            compare(t)
        }
        Err(_) => Tally::new(),
    }
}

// The doubling thread, with one state: symbol 0 is removed, and symbols 1 to 12 each become two of the one below them.
fn doubling(t: &mut [u16; SIZE]) -> Tally {
    closed(
        t,
        b"\x49\x01\x00\x0D\x00\x00\
          \x06\x01\x00\x00\x06\x02\x01\x01\x06\x03\x02\x02\x06\x04\x03\x03\x06\x05\x04\x04\x06\x06\x05\x05\
          \x06\x07\x06\x06\x06\x08\x07\x07\x06\x09\x08\x08\x06\x0A\x09\x09\x06\x0B\x0A\x0A\x06\x0C\x0B\x0B",
        compared,
    )
}

// Two states. Rule 0, held: in state 0 symbol 0 becomes 1, and state 1 follows. Rule 1: in state 1 symbol 1 becomes 2. Rule 2, held: in
// state 1 symbol 2 goes, and state 0 follows. Control 5 is state 1 after a held step, control 4 is state 0 after one.
fn held(t: &mut [u16; SIZE]) -> Tally {
    closed(
        t,
        b"\x49\x02\x80\x04\x05\x00\x00\x00\x00\x00\x00\x00\
          \x03\x03\x00\x01\x01\x02\x11\x02\x01\x12\x00",
        after_held,
    )
}

// From state 0 with symbol 0: to stay there, to stay at state 1, to be gone at state 0 and there after a held step. Then to stay at
// state 1 with symbol 2, from there and after a held step; with symbol 1 after a held step; and with the floor at state 0 after one.
fn after_held(t: &[u16]) -> Tally {
    Tally::of(&[
        count_at(t, 4) == 0,
        count_at(t, 5) == 2,
        count_at(t, 0) == UNREACHED,
        count_at(t, 12) == 3,
        count_at(t, 309) == 0,
        count_at(t, 1397) == UNREACHED,
        count_at(t, 1381) == 1,
        count_at(t, 1348) == UNREACHED,
    ])
}

// The thread of a record.
fn dense(t: &mut [u16; SIZE], bytes: &[u8]) -> u64 {
    match record::read(bytes) {
        Ok(m) => whole(t, &Pushdown::new(m.a, m.g as usize, None)),
        Err(_) => 0,
    }
}

// The thread of the file, and the sum of its cells.
fn file(
    rt: &(impl Files + Print + Eprint),
    t: &mut [u16; SIZE],
    store: &mut [u8],
) -> io::Result<()> {
    let sum = dense(t, vectors::load(rt, b"dense.bin", store));
    println!(rt; "dense.bin: sum {sum}")
}

fn main(rt: HostRuntime) -> io::Result<()> {
    let mut t = [0u16; SIZE];
    doubling(&mut t).report(&rt, b"doubling thread")?;
    held(&mut t).report(&rt, b"held rules")?;
    let mut store = [0u8; 700];
    file(&rt, &mut t, &mut store)
}
