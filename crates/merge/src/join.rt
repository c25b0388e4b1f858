// Two ascending lists of rules made one: each step takes the lower of the two first rules, and one that both have once. `Listed` stays a
// clause: a type for a listed thread would be made for two calls, and taken apart in each function.
ghost use Rattle.std.specs.Prelude.{◌≡◌, ◌+◌, ◌≤◌, ◌<◌};
ghost use Rattle.model.specs.Refusals.{told};
ghost use Rattle.merge.specs.Answer.{bits_from, bytes_from, flag_at};
ghost use Rattle.merge.specs.Joining.{Listed, next_with, Nexts, filling_of, joining_of};
ghost use Rattle.merge.specs.Union.{entry_of, both, union_of, clash};

use crate::{Filled, Next};
use model::{Refusal, Rule, Thread, ZERO_RULE};

// Whether a rule is held in one of two threads and free in the other.
pub fn has_clash(t: Thread, u: Thread) -> bool
    requires { Listed t × Listed u }
    ensures { result ≡ clash (union_of t u) }
{
    let total = t.count + u.count;
    let mut i = 0;
    let mut j = 0;
    // a `while`, since a step goes on in one list or in both: an iterator over both lists would carry the same invariant in a type of its own
    while i + j < total {
        let x = next(t, u, i, j);
        if x.held && x.free {
            return true;
        }
        i = x.i;
        j = x.j;
    }
    false
}

// The thread of the rules of both, with the head fields of the first.
pub fn join(t: Thread, u: Thread) -> Result<Thread, Refusal>
    requires { Listed t × Listed u }
    ensures { told result ≡ joining_of t u }
{
    let Filled { count, rules, held } = fill(t, u)?;
    let held = bytes_of(held);
    Ok(Thread {
        held,
        count,
        rules,
        ..t
    })
}

// The rules of both in 64 places, and which of them are held.
#[tactic(auto, using(crate::proofs::Filling::no_room))]
fn fill(t: Thread, u: Thread) -> Result<Filled, Refusal>
    requires { Listed t × Listed u }
    ensures { told result ≡ filling_of (union_of t u) }
{
    let total = t.count + u.count;
    let mut rules = [ZERO_RULE; 64];
    let mut held = [false; 64];
    let mut count = 0;
    let mut i = 0;
    let mut j = 0;
    // a `while`, as above
    while i + j < total {
        let x = next(t, u, i, j);
        if count == 64 {
            return Err(Refusal::ManyRules);
        }
        rules[count] = x.rule;
        held[count] = x.held;
        count += 1;
        i = x.i;
        j = x.j;
    }
    Ok(Filled { count, rules, held })
}

// Flags as eight bytes, lowest bit first.
fn bytes_of(flags: [bool; 64]) -> [u8; 8]
    ensures { result ≡ bytes_from (flag_at flags) 0 8 }
{
    let mut bytes = [0u8; 8];
    for i in 0..8 {
        bytes[i] = byte_of(flags, 8 * i);
    }
    bytes
}

// The byte of eight flags from place p on, lowest bit first.
#[tactic(auto, using(crate::proofs::Packing::packs_none, crate::proofs::Packing::packs_more, crate::proofs::Packing::packs_room), unfolding(crate::specs::Answer::flag_at))]
fn byte_of(flags: [bool; 64], p: usize) -> u8
    requires { p ≤ 56 }
    ensures { result ≡ bits_from (flag_at flags) p 8 }
{
    let mut byte = 0u8;
    for i in 0..8 {
        byte = 2 * byte + u8::from(flags[p + 7 - i]);
    }
    byte
}

// The first of the rules of both from numbers i and j on.
fn next(t: Thread, u: Thread, i: usize, j: usize) -> Next
    requires { Listed t × Listed u × (i ≤ t.count) × (j ≤ u.count) × (i + j < t.count + u.count) }
    ensures { Nexts t u i j result }
{
    if t.count <= i {
        return alone(u, j, i, j + 1);
    }
    if u.count <= j {
        return alone(t, i, i + 1, j);
    }
    let x = model::key(t.rules[i]);
    let y = model::key(u.rules[j]);
    if x < y {
        alone(t, i, i + 1, j)
    } else if y < x {
        alone(u, j, i, j + 1)
    } else {
        shared(t, u, i, j)
    }
}

// Rule r of one thread, which the other lacks; i and j are the numbers after it.
fn alone(t: Thread, r: usize, i: usize, j: usize) -> Next
    requires { r < 64 }
    ensures { result ≡ next_with (entry_of t r) i j }
{
    let held = model::is_held(t.held, r);
    Next {
        rule: t.rules[r],
        held,
        free: !held,
        i,
        j,
    }
}

// A rule that both have, at numbers i and j.
fn shared(t: Thread, u: Thread, i: usize, j: usize) -> Next
    requires { (i < 64) × (j < 64) }
    ensures { result ≡ next_with (both (entry_of t i) (entry_of u j)) (i + 1) (j + 1) }
{
    let x = alone(t, i, i + 1, j + 1);
    let y = alone(u, j, i + 1, j + 1);
    Next {
        held: x.held || y.held,
        free: x.free || y.free,
        ..x
    }
}
