// Replays document 01's schedules and a file of random ones, and compares.
#![tactic(auto)]

use model::{Depths, Shared};
use replay::Replayed;
use std::io;
use vectors::{Cases, Tally};

// A schedule of the model that a record holds, all zero where it holds none, gets this answer: the last shared state, whether its run ends
// at the target, and the depths of A and B; or a refusal's number.
fn agrees(bytes: &[u8], schedule: &[u8], wanted: Result<Replayed, u8>) -> bool {
    let m = vectors::model_of(bytes);
    match replay::replay(m, schedule) {
        Ok(replayed) => wanted == Ok(replayed),
        Err(refusal) => wanted == Err(refusal.number()),
    }
}

// It is accepted, with these.
fn accepts(bytes: &[u8], schedule: &[u8], last: u8, target: bool, a: usize, b: usize) -> bool {
    agrees(bytes, schedule, Ok(replayed(last, target, a, b)))
}

// It is refused with this number.
fn refuses(bytes: &[u8], schedule: &[u8], number: u8) -> bool {
    agrees(bytes, schedule, Err(number))
}

// What is said of a schedule that is accepted.
fn replayed(last: u8, reached: bool, a: usize, b: usize) -> Replayed {
    Replayed {
        shared: Shared(last),
        reached,
        depths: Depths { a, b },
    }
}

// Schedules of model One, and of model Two at K=2 and at K=1.
fn document() -> Tally {
    let (one, two, once) = (vectors::ONE, vectors::TWO, vectors::TWO_ONCE);
    Tally::of(&[
        accepts(&one, &[0, 0], 1, true, 1, 1),
        accepts(&two, &[0, 0, 0, 1, 1, 0, 2, 2], 3, true, 2, 1),
        accepts(&two, &[], 0, false, 1, 1),
        refuses(&two, &[0], 8),
        refuses(&once, &[2, 0], 9),
        refuses(&two, &[0, 2], 10),
        refuses(&two, &[0, 3], 10),
        refuses(&two, &[4, 0], 9),
        refuses(&two, &[0, 1, 1, 0, 0, 2], 9),
        // A's stack is empty after its step: B goes on, and A takes no step.
        accepts(&two, &[0, 1, 1, 0], 2, false, 1, 1),
        refuses(&two, &[0, 1, 1, 0, 2, 2], 10),
    ])
}

// Yes needs the tops too: at the start, where A's stack is empty, and where a 0 lies below the one that A's last step removes.
fn tops() -> Tally {
    let top_a =
        *b"\xC8\x83\x01\x00\x03\x06\x00\x00\x00\x01\x00\x01\x01\x20\x03\x01\x03\x10\x02\x00";
    let tops =
        *b"\xC8\x83\x03\x00\x01\x03\x06\x00\x00\x00\x01\x00\x01\x01\x20\x03\x01\x03\x10\x02\x00";
    let once = [0, 0, 0, 1, 1, 0, 2, 2];
    let twice = [0, 0, 0, 0, 0, 1, 1, 0, 2, 2];
    Tally::of(&[
        accepts(b"\x08\x80\x01\x00", &[], 0, true, 1, 1),
        accepts(b"\x08\x80\x02\x01", &[], 0, false, 1, 1),
        accepts(
            b"\x4B\x02\x01\x81\x01\x00\x01\x01\x00\x01",
            &[0, 0],
            1,
            false,
            1,
            1,
        ),
        accepts(
            b"\x4B\x02\x01\x81\x02\x00\x01\x01\x00\x01",
            &[0, 0],
            1,
            true,
            1,
            1,
        ),
        accepts(&top_a, &once, 3, false, 2, 1),
        accepts(&top_a, &twice, 3, true, 3, 1),
        accepts(&top_a, &twice[..6], 1, false, 3, 1),
        accepts(&tops, &twice, 3, false, 3, 1),
    ])
}

// A turn is not left after a held step: not at the end, nor for another turn, be it the same thread's or by a rule that is not there.
// A turn number that does not fit comes first; within the turn the next rule decides. The models are Two with A's first rule held, with
// A's second, and with B's only one.
fn held() -> Tally {
    let first =
        *b"\xC8\x83\x04\x01\x00\x00\x00\x00\x00\x00\x00\x03\x06\x00\x00\x00\x01\x00\x01\x01\x20\x03\x01\x03\x10\x02\x00";
    let second =
        *b"\xC8\x83\x04\x02\x00\x00\x00\x00\x00\x00\x00\x03\x06\x00\x00\x00\x01\x00\x01\x01\x20\x03\x01\x03\x10\x02\x00";
    let of_b =
        *b"\xC8\x83\x08\x01\x00\x00\x00\x00\x00\x00\x00\x03\x06\x00\x00\x00\x01\x00\x01\x01\x20\x03\x01\x03\x10\x02\x00";
    let once = [0, 0, 0, 1, 1, 0, 2, 2];
    Tally::of(&[
        accepts(&first, &once, 3, true, 2, 1),
        refuses(&first, &once[..2], 12),
        refuses(&first, &[0, 0, 2, 0], 12),
        accepts(&second, &[], 0, false, 1, 1),
        refuses(&second, &once[..4], 12),
        refuses(&second, &once, 12),
        refuses(&second, &[0, 1, 1, 9], 12),
        refuses(&second, &[0, 1, 4, 9], 9),
        refuses(&second, &[0, 1, 0, 9], 10),
        refuses(&of_b, &once, 12),
    ])
}

// The longest schedules: 4,095 steps that push, or that keep the top; one step more is refused.
fn longest() -> Tally {
    let push = [72u8, 1, 1, 6, 0, 0, 0];
    let keep = [72u8, 0, 1, 2, 0, 0];
    let zeros = [0u8; 8192];
    Tally::of(&[
        accepts(&push, &zeros[..8190], 0, false, 4096, 1),
        refuses(&push, &zeros, 8),
        accepts(&keep, &zeros[..8190], 0, true, 1, 1),
        refuses(&keep, &zeros[..8189], 8),
        refuses(&keep, &zeros, 8),
    ])
}

// A depth is the greatest height, whatever comes after it: no step; stacks that only shrink; two pushes and two removals; a push after a
// removal; 4,095 pushes; both stacks deep in turn; and heights that only a held step reaches. In `free` A pushes by rule 0, removes and goes
// to state 1, the target, by rule 1, and removes there by rule 2; B removes by rule 0 and pushes by rule 1, and in state 1 by rule 2. In
// `held`, A's rule 0 and B's rule 1 are held.
fn depths() -> Tally {
    let free =
        *b"\xC8\x01\x03\x06\x00\x00\x00\x01\x00\x01\x00\x10\x03\x00\x00\x06\x00\x00\x00\x06\x10\x00\x00";
    let held = *b"\xC8\x81\x0C\x01\x00\x00\x00\x00\x00\x00\x00\x02\x00\x00\x00\x00\x00\x00\x00\
          \x03\x06\x00\x00\x00\x01\x00\x01\x00\x10\x03\x00\x00\x06\x00\x00\x00\x06\x10\x00\x00";
    Tally::of(&[
        accepts(&free, &[], 0, false, 1, 1),
        accepts(&free, &[0, 1], 1, true, 1, 1),
        accepts(&free, &[1, 0], 0, false, 1, 1),
        accepts(&free, &[0, 0, 0, 0, 0, 1, 0, 2], 1, true, 3, 1),
        accepts(&free, &[1, 1, 1, 1, 1, 0, 1, 0], 0, false, 1, 3),
        accepts(&free, &[1, 1, 1, 0, 1, 1], 0, false, 1, 2),
        accepts(&free, &[0; 8190], 0, false, 4096, 1),
        accepts(&free, &[1; 8190], 0, false, 1, 4096),
        accepts(&free, &[0, 0, 0, 0, 1, 1, 2, 0, 3, 1], 0, false, 4, 3),
        accepts(&free, &[0, 0, 0, 0, 0, 1, 1, 2, 2, 2], 1, true, 3, 2),
        accepts(&held, &[0, 0, 0, 1], 1, true, 2, 1),
        accepts(&held, &[1, 1, 1, 0], 0, false, 1, 2),
    ])
}

// A case of the file: a record and a schedule with their lengths, the answer in three bytes, and the depths in two each.
fn case(cases: &mut Cases) -> bool {
    let bytes = cases.part();
    let schedule = cases.part();
    let number = cases.byte();
    let last = cases.byte();
    let target = cases.byte() == 1;
    let a = cases.number();
    let b = cases.number();
    let wanted = match number {
        0 => Ok(replayed(last, target, a, b)),
        _ => Err(number),
    };
    agrees(bytes, schedule, wanted)
}

fn main(rt: HostRuntime) -> io::Result<()> {
    document().report(&rt, b"document 01")?;
    tops().report(&rt, b"tops")?;
    held().report(&rt, b"held rules")?;
    longest().report(&rt, b"longest schedules")?;
    depths().report(&rt, b"depths")?;
    vectors::file(&rt, "schedules.bin", &mut [0u8; 450000], case)
}
