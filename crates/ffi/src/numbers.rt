// Answers as numbers: a kind in the low byte, and three fields of 16 bits from bit 16 on. The numbers of the kinds are those of the C interface.
ghost use Rattle.std.specs.Prelude.{◌≡◌, ◌<◌};
ghost use Rattle.ffi.specs.Replies.{packed, number_in, FieldsFit, end_kind, kind_number};

use model::{Depths, Refusal};

// The kinds of answers, by their numbers. A refusal's kind is its own number, 1 to 31.
#[derive(Clone, Copy, Debug, PartialEq, Eq)]
pub enum Kind {
    Done = 0,
    Written = 32,
    Clear,
    Long,
    Found,
    Stopped,
    Reached,
    Taken,
    None,
    Paged,
    Followed,
    Judged,
    Printed,
}

// The number of an answer, or of a refusal.
pub fn number(answer: Result<u64, Refusal>) -> u64
    ensures { result ≡ number_in answer }
{
    match answer {
        Ok(number) => number,
        Err(refusal) => u64::from(refusal.number()),
    }
}

// The kind of a replay that is accepted.
#[tactic(auto, unfolding(crate::specs::Replies::end_kind))]
pub fn end_kind(reached: bool) -> Kind
    ensures { kind_number result ≡ end_kind reached }
{
    if reached {
        Kind::Reached
    } else {
        Kind::Stopped
    }
}

// The number of a kind that carries x in its first field, or in its first two where x is longer.
#[tactic(auto, using(crate::proofs::Replies::kind_low))]
pub fn with_field(kind: Kind, x: u64) -> u64
    requires { x < 4294967296 }
    ensures { result ≡ packed (kind_number kind) x 0 0 }
{
    kind as u64 + 65536 * x
}

// The number of a kind that carries x in its first field, and depths in the second and the third.
pub fn with_depths(kind: Kind, x: u64, depths: Depths) -> u64
    requires { FieldsFit x depths }
    ensures { result ≡ packed (kind_number kind) x depths.a depths.b }
{
    with_fields(kind, x, depths.a as u64, depths.b as u64)
}

// The number of a kind that carries three numbers in its fields.
#[tactic(auto, using(crate::proofs::Replies::kind_low))]
pub fn with_fields(kind: Kind, x: u64, y: u64, z: u64) -> u64
    requires { (x < 65536) × (y < 65536) × (z < 65536) }
    ensures { result ≡ packed (kind_number kind) x y z }
{
    kind as u64 + 65536 * (x + 65536 * (y + 65536 * z))
}
