// Reads trays made by hand and a file of random ones, and compares: the answer, the rest, and the record that is taken.
#![tactic(auto)]

use model::{Model, Refusal};
use record::Front;
use std::io;
use vectors::{Cases, Tally};

// What the cases write for a record that is accepted, and for none; any other number is a refusal's.
const ACCEPTED: u8 = 0;

const NONE: u8 = 255;

// The number of what stands at the front of a tray.
fn number(found: Result<Option<Front>, Refusal>) -> u8 {
    match found {
        Ok(Some(_)) => ACCEPTED,
        Ok(None) => NONE,
        Err(refusal) => refusal.number(),
    }
}

// A model's record is these bytes.
fn written(m: Model, bytes: &[u8]) -> bool {
    let mut store = [0u8; 700];
    record::write(m, &mut store) == Ok(bytes.len()) && store.starts_with(bytes)
}

// A tray gets this answer, and its rest is its last bytes, so many; a record that is accepted is what stands before them.
fn agrees(tray: &[u8], answer: u8, left: usize) -> bool {
    let found = tray::first(tray);
    if number(found) != answer || tray.len() < left {
        return false;
    }
    let (taken, rest) = tray.split_at(tray.len() - left);
    if tray::rest(tray) != rest {
        return false;
    }
    match found {
        Ok(Some(front)) => front.size == taken.len() && written(front.model, taken),
        _ => true,
    }
}

// What document 02 says of trays: a day's models, read one by one and then none; one record that is refused, and one behind a good one.
fn by_hand() -> Tally {
    let day =
        *b"\x08\x00\x4B\x02\x01\x01\x01\x01\x00\x01\xC8\x03\x03\x06\x00\x00\x00\x01\x00\x01\x01\x20\x03\x01\x03\x10\x02\x00";
    let second = tray::rest(&day);
    let third = tray::rest(second);
    Tally::of(&[
        agrees(&day, ACCEPTED, 26),
        agrees(second, ACCEPTED, 18),
        agrees(third, ACCEPTED, 0),
        agrees(tray::rest(third), NONE, 0),
        agrees(&[], NONE, 0),
        agrees(b"\x08\x00\x00", ACCEPTED, 1),
        agrees(tray::rest(b"\x08\x00\x00"), 2, 0),
        agrees(b"\x08", 1, 0),
        agrees(b"\x00\x08\x00", 2, 0),
        agrees(b"\x09\x05\x00\x08\x00", 3, 0),
        agrees(b"\x48\x00\x01\x08\x00\x08\x00", 4, 0),
        agrees(b"\x09\x04\x00\x08\x00", 5, 0),
        agrees(
            b"\x48\x80\x04\x01\x00\x00\x00\x00\x00\x00\x00\x01\x00\x00\x08\x00",
            ACCEPTED,
            2,
        ),
        agrees(
            b"\x48\x80\x04\x02\x00\x00\x00\x00\x00\x00\x00\x01\x00\x00\x08\x00",
            11,
            0,
        ),
        agrees(b"\x48\x00\x02\x00\x10\x00\x00\x08\x00", 13, 0),
        agrees(b"\x08\x80\x30\x0F\x01\x08\x00", ACCEPTED, 2),
        agrees(b"\x48\x80\x10\x05\x01\x00\x05\x08\x00", 17, 0),
    ])
}

// A case of the file: a tray with its length, its answer, and the length of the rest in two bytes.
fn case(cases: &mut Cases) -> bool {
    let tray = cases.part();
    let answer = cases.byte();
    agrees(tray, answer, cases.number())
}

fn main(rt: HostRuntime) -> io::Result<()> {
    by_hand().report(&rt, b"by hand")?;
    vectors::file(&rt, "trays.bin", &mut [0u8; 210000], case)
}
