// The rules of the threads in the one stack.
ghost use Rattle.std.specs.Prelude.{◌≡◌, ◌+◌, ◌≤◌, length};
ghost use Rattle.model.specs.Fits.{Fits, RuleFits, RightFits};
ghost use Rattle.sequential.specs.Allowed.{symbol_of};
ghost use Rattle.sequential.specs.Answer.{plain_thread};
ghost use Rattle.sequential.specs.Listed.{taker_of, act_of, acts_of, taken_at};
ghost use Rattle.sequential.specs.Parts.{state_of, right_of, ActsFit};
ghost use Rattle.sequential.specs.Text.{text_of};

use crate::sink::Sink;
use crate::state::{State, Transition};
use model::{Model, Right, Rule, Symbol, Thread, ThreadId};

// The first of B's symbols in the one stack, which come after A's. A number, as the others in `rules`.
pub const FROM_B: u8 = 16;

// Whether a thread has no held rule and names no top.
#[tactic(auto, unfolding(crate::specs::Answer::plain_thread, crate::specs::Answer::unnamed))]
pub fn is_plain(t: Thread) -> bool
    ensures { result ≡ plain_thread t }
{
    match t.top {
        None => model::all_zero(t.held),
        Some(_) => false,
    }
}

// Puts the rules that take a top at a state: A's where it is A's symbol, and else B's. That a turn is left is a clause here, below and in
// `rules`: a state may also stand past its last turn, so `State` cannot say it.
pub fn put_taken<S: Sink>(out: &mut S, m: &Model, s: State, top: u8)
    requires fits { Fits m.now }
    requires turn { s.counter ≤ s.rounds }
    requires room { length (text_of (taken_at m.now (taker_of top) (state_of s) top)) ≤ S.room out.old }
    ensures { S.takes out.old out.new (text_of (taken_at m.now (taker_of top) (state_of s) top)) }
{
    if top < FROM_B {
        put_acts(out, &m.a, ThreadId::A, &s, top);
    } else {
        put_acts(out, &m.b, ThreadId::B, &s, top);
    }
}

// Those of one thread. The state comes by reference, too: by value it was copied for each rule, to look at one of its copies.
fn put_acts<S: Sink>(out: &mut S, t: &Thread, id: ThreadId, s: &State, top: u8)
    requires fits { ActsFit t.now }
    requires turn { s.now.counter ≤ s.now.rounds }
    requires room { length (text_of (acts_of t.now id (state_of s.now) top)) ≤ S.room out.old }
    ensures { S.takes out.old out.new (text_of (acts_of t.now id (state_of s.now) top)) }
{
    for r in 0..t.count {
        put_act(out, t.rules[r], id, s, top);
    }
}

// One rule of a thread, if it takes the top.
fn put_act<S: Sink>(out: &mut S, r: Rule, id: ThreadId, s: &State, top: u8)
    requires fits { RuleFits 4 r }
    requires turn { s.now.counter ≤ s.now.rounds }
    requires room { length (text_of (act_of r id (state_of s.now) top)) ≤ S.room out.old }
    ensures { S.takes out.old out.new (text_of (act_of r id (state_of s.now) top)) }
{
    let place = s.counter as usize - 1;
    if r.before.0 == s.copies[place] && symbol_of(id, r.symbol.0) == top {
        let mut to = *s;
        to.copies[place] = r.after.0;
        out.rule(Transition {
            from: *s,
            top,
            to,
            new: right_of(id, r.right),
        });
    }
}

// The new symbols of a thread's rule in the one stack.
fn right_of(id: ThreadId, x: Right) -> Right
    requires { RightFits x }
    ensures { result ≡ right_of id x }
{
    match x {
        Right::Remove => Right::Remove,
        Right::Swap(a) => Right::Swap(Symbol(symbol_of(id, a.0))),
        Right::Push(a, b) => Right::Push(Symbol(symbol_of(id, a.0)), Symbol(symbol_of(id, b.0))),
    }
}

// A thread's symbol in the one stack.
fn symbol_of(id: ThreadId, symbol: u8) -> u8
    requires { symbol ≤ 15 }
    ensures { result ≡ symbol_of id symbol }
{
    match id {
        ThreadId::A => symbol,
        ThreadId::B => FROM_B + symbol,
    }
}
