// What the programs that compare with stored cases share: a tally, a report, the reading of files of cases, and what a store holds.
#![tactic(auto)]

ghost use Rattle.model.specs.Walk.{other, thread_of};
ghost use Rattle.record.specs.Held.{reading_of};
ghost use Rattle.record.specs.Reader.{read_of};
ghost use Rattle.std.specs.Fn.{FnOnceReturnsAtMut};
ghost use Rattle.std.specs.Prelude.{◌+◌, ◌≡◌, ◌≤◌, cond, count_by, length, not};
ghost use Rattle.vectors.specs.Stores.{answer_of, model_or_zero};
ghost use Rattle.vectors.specs.Tallies.{count};

use model::{Model, Refusal, Thread, ThreadId};
use std::io::{ErrorKind, Read};
use std::rt::Files;
use std::{fmt, fs, io};

mod cases;
mod stores;

pub use cases::{Cases, corpus};
pub use stores::{KEPT, filled, holds, puts, puts_tightly};

// The records of document 01's models: One, Two, and Two at K=1.
pub const ONE: [u8; 8] = *b"\x4B\x02\x01\x01\x01\x01\x00\x01";

pub const TWO: [u8; 18] =
    *b"\xC8\x03\x03\x06\x00\x00\x00\x01\x00\x01\x01\x20\x03\x01\x03\x10\x02\x00";

pub const TWO_ONCE: [u8; 19] =
    *b"\xCA\x01\x03\x03\x06\x00\x00\x00\x01\x00\x01\x01\x20\x03\x01\x03\x10\x02\x00";

// How many answers were compared, and how many of them differ from what is stored.
#[derive(Clone, Copy)]
pub struct Tally {
    pub compared: u64,
    pub differ: u64,
}

impl Tally {
    pub fn new() -> Self
        ensures compared { result.compared ≡ 0 }
        ensures differ { result.differ ≡ 0 }
    {
        Tally {
            compared: 0,
            differ: 0,
        }
    }

    // Of some answers, whether each agrees.
    pub fn of(answers: &[bool]) -> Self
        ensures compared { result.compared ≡ length answers.now }
        ensures differ { result.differ ≡ count_by not answers.now }
    {
        Tally {
            compared: answers.len() as u64,
            differ: answers.iter().filter(|agrees| !**agrees).count() as u64,
        }
    }

    // One answer more.
    pub fn counted(self, agrees: bool) -> Self
        ensures compared { result.compared ≡ count (self.compared + 1) }
        ensures differ { result.differ ≡ count (self.differ + cond agrees 0 1) }
    {
        Tally {
            compared: self.compared.saturating_add(1),
            differ: self.differ.saturating_add(u64::from(!agrees)),
        }
    }

    // These answers and those of another.
    pub fn and(self, other: Self) -> Self
        ensures compared { result.compared ≡ count (self.compared + other.compared) }
        ensures differ { result.differ ≡ count (self.differ + other.differ) }
    {
        Tally {
            compared: self.compared.saturating_add(other.compared),
            differ: self.differ.saturating_add(other.differ),
        }
    }

    // A line such as `records.bin: 2200 compared, 0 differ`. The name is any bytes.
    pub fn report(self, rt: &impl Print, name: &[u8]) -> io::Result<()> {
        rt.write_all(name)?;
        println!(rt; ": {self}")
    }
}

impl fmt::Display for Tally {
    fn fmt<W: fmt::Write>(&self, f: &mut fmt::Formatter<W>) -> fmt::Result {
        write!(f, "{} compared, {} differ", self.compared, self.differ)
    }
}

// Compares all cases of a file, which the store has room for, and reports. What a file holds and what is printed, no clause says.
pub fn file<F: Fn(&mut Cases) -> bool>(
    rt: &(impl Files + Print + Eprint),
    name: &str,
    store: &mut [u8],
    case: F,
) -> io::Result<()>
    requires { F.IsAlwaysCallable case }
    ensures { length store.new ≡ length store.old }
{
    let name = name.as_bytes();
    corpus(load(rt, name, store), case).report(rt, name)
}

// Reads a file of the program's folder into a store, and answers its bytes. One that cannot be opened is named on standard error, and has
// none.
pub fn load<'a>(rt: &(impl Files + Eprint), path: &[u8], store: &'a mut [u8]) -> &'a [u8]
    ensures { length result.now ≤ length store.old }
{
    match open(rt, path) {
        Ok(mut file) => {
            let size = fill(&mut file, store);
            &store[..size]
        }
        Err(error) => {
            let _ = eprintln!(rt; "{}: {error}", path.escape_ascii());
            &[]
        }
    }
}

// A path is text.
fn open<R: Files>(rt: &R, path: &[u8]) -> io::Result<R::File> {
    match str::from_utf8(path) {
        Ok(text) => fs::open(rt, text),
        Err(_) => Err(io::Error::from(ErrorKind::InvalidInput)),
    }
}

// Reads until the store is full, the input ends or a read fails, and answers how many bytes stand at the front of the store.
fn fill(input: &mut impl Read, store: &mut [u8]) -> usize
    ensures { result ≤ length store.new }
{
    let mut size = 0;
    // a `while`: each read says how far it came
    while size < store.len() {
        match input.read(&mut store[size..]) {
            Ok(0) | Err(_) => return size,
            Ok(n) => size += n,
        }
    }
    size
}

// The number of an answer in the files of cases: a refusal's, or 0 where there is none.
pub fn number<T: Drop>(answer: Result<T, Refusal>) -> u8
    ensures { result ≡ answer_of answer }
{
    match answer {
        Ok(_) => 0,
        Err(refusal) => refusal.number(),
    }
}

// The model of a record. One that is refused has none, and the model without states stands for it.
pub fn model_of(bytes: &[u8]) -> Model
    ensures { result ≡ model_or_zero (reading_of (read_of bytes.now)) }
{
    record::read(bytes).unwrap_or(model::zero_model())
}

// A model with a change of one of its threads.
pub fn with<F: FnOnce(&mut Thread)>(mut m: Model, id: ThreadId, change: F) -> Model
    requires { F.IsAlwaysCallable change }
    ensures changed { FnOnceReturnsAtMut F.FnOnce change (thread_of id m) tt (thread_of id result) }
    ensures kept { thread_of (other id) result ≡ thread_of (other id) m }
{
    match id {
        ThreadId::A => change(&mut m.a),
        ThreadId::B => change(&mut m.b),
    }
    m
}
