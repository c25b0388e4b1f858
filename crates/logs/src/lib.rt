// Logs from the router: where one leads, and the fewest rounds that could hold it.
#![tactic(auto)]

ghost use Rattle.std.specs.Prelude.{◌≡◌, ◌+◌, ◌/◌, ◌<◌, length};
ghost use Rattle.logs.specs.Log.{earliest, byte_from, bytes_from, rounds_by, followed_of};
ghost use Rattle.model.specs.Refusals.{told};
ghost use Rattle.walk.specs.Stack.{config_of, walked_of, Counted, Room, Grows};

use model::{MOST_BYTES, Model, Refusal, Shared, need};
use walk::{STACK, Walk};

// What a log comes to: the last shared state, and the fewest rounds that could hold it.
#[derive(Clone, Copy, Debug, PartialEq, Eq)]
pub struct Followed {
    pub shared: Shared,
    pub rounds: usize,
}

// Follows a log from the model's start, once the model and the log's size are found good.
#[tactic(auto, using(replay::proofs::Answers::counted), unfolding(crate::specs::Log::followed_of, model::specs::Results::first_of))]
pub fn follow(m: Model, log: &[u8]) -> Result<Followed, Refusal>
    ensures { told result ≡ followed_of m log.now }
{
    model::check(m)?;
    need(log.len() <= MOST_BYTES / 2, Refusal::Log)?;
    let mut a = [0u8; STACK];
    let mut b = [0u8; STACK];
    let start = walk::start(m, &mut a, &mut b);
    let w = steps(start, m, log, &mut a, &mut b)?;
    Ok(Followed {
        shared: w.shared,
        rounds: rounds(log.len(), w.turn),
    })
}

// The steps of a log, in order, up to the first byte that is refused; its last is not held (12).
#[tactic(auto, using(crate::proofs::Following::stops, crate::proofs::Following::ends_held, crate::proofs::Following::ends))]
fn steps(start: Walk, m: Model, log: &[u8], a: &mut [u8], b: &mut [u8]) -> Result<Walk, Refusal>
    requires counted { Counted m }
    requires room { Room (length log.now) start a.old b.old }
    requires low { start.turn + length log.now < 65536 }
    ensures { walked_of result a.new b.new ≡
        bytes_from m (config_of start a.old b.old) log.now }
{
    let mut w = start;
    for byte in log {
        w = step(w, m, *byte, a, b)?;
    }
    need(!w.held, Refusal::Held)?;
    Ok(w)
}

// The step of one byte, in the earliest turn that it can have: bit 6 is zero (18), and then the step is made in that turn (12, 10).
#[tactic(auto, unfolding(crate::specs::Log::byte_from))]
fn step(w: Walk, m: Model, byte: u8, a: &mut [u8], b: &mut [u8]) -> Result<Walk, Refusal>
    requires counted { Counted m }
    requires room { Room 1 w a.old b.old }
    requires low { w.turn < 65536 }
    ensures by { walked_of result a.new b.new ≡
        byte_from m (config_of w a.old b.old) byte }
    ensures grows { Grows w result a.old b.old a.new b.new }
{
    need(byte / 64 % 2 == 0, Refusal::Log)?;
    w.made(m, turn_from(w.turn, byte), byte % 64, a, b)
}

// The earliest turn of a byte's thread, from a turn on.
#[tactic(auto, unfolding(crate::specs::Log::earliest))]
fn turn_from(turn: usize, byte: u8) -> usize
    requires { turn < 65536 }
    ensures { result ≡ earliest turn (byte / 128) }
{
    turn + (turn + (byte / 128) as usize) % 2
}

// The rounds of a log of so many bytes whose last step is in this turn.
#[tactic(auto, using(crate::proofs::Bytes::some_rounds))]
fn rounds(bytes: usize, turn: usize) -> usize
    ensures { result ≡ rounds_by bytes turn }
{
    if bytes == 0 { 0 } else { turn / 2 + 1 }
}
