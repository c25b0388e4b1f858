// The rules at a counter, at a state, and at a state and a top.
ghost use Rattle.std.specs.Prelude.{◌≡◌, ◌+◌, ◌^◌, ◌≤◌, ◌<◌, length};
ghost use Rattle.model.specs.Fits.{Fits};
ghost use Rattle.model.specs.Lines.{digits};
ghost use Rattle.sequential.specs.Allowed.{at, closing};
ghost use Rattle.sequential.specs.Listed.{pass_of, begin_of, close_of, holder_of, rules_at, rules_of, rules_with};
ghost use Rattle.sequential.specs.Parts.{state_of};
ghost use Rattle.sequential.specs.Text.{text_of};

use crate::sink::Sink;
use crate::state::{State, Transition};
use crate::threads::{self, FROM_B};
use costs::parts::{self, Line};
use model::{Model, Right, Symbol, Thread};

// The marks at the bottom of A's and of B's part of the stack, the check symbol and the helper, and how many symbols there are. Symbols are numbers,
// as the text prints them and `closing` and `rules_at` speak of them.
const MARK_A: u8 = 32;

const MARK_B: u8 = 33;

const CHECK: u8 = 34;

const HELPER: u8 = 35;

const SYMBOLS: u8 = 36;

// Puts the rules at a counter, for all copies below G. The sink, the model and the state come one by one, here and in `threads`: the sink is lent,
// and a struct with it would promise its `&mut` again. So does a state's top, which runs through all symbols at one state.
pub fn put_counter<S: Sink>(out: &mut S, m: Model, counter: u8)
    requires fits { Fits m }
    requires counter { (1 ≤ counter) × (counter ≤ m.k + 1) }
    requires room { length (text_of (rules_with m counter)) ≤ S.room out.old }
    ensures { S.takes out.old out.new (text_of (rules_with m counter)) }
{
    let n = parts::power(m.g as usize, m.k as usize);
    for v in 0..n {
        put_state(out, &m, state_at(m, counter, v));
    }
}

// The state with this counter and the copies whose value is v.
fn state_at(m: Model, counter: u8, v: usize) -> State
    requires fits { Fits m }
    requires counter { (1 ≤ counter) × (counter ≤ m.k + 1) }
    requires value { v < m.g ^ m.k }
    ensures state { state_of result ≡ at counter (digits m.g m.k v) }
    ensures rounds { result.rounds ≡ m.k }
{
    let line = Line {
        g: m.g as usize,
        len: m.k as usize,
        value: v,
    };
    let first = line.state(0) as u8;
    let second = line.state(1) as u8;
    let third = line.state(2) as u8;
    State {
        rounds: m.k,
        counter,
        copies: [first, second, third],
    }
}

// Those at a state, for all tops. The model comes by reference, here and below: by value it was copied for each state and each top.
fn put_state<S: Sink>(out: &mut S, m: &Model, s: State)
    requires fits { Fits m.now }
    requires rounds { s.rounds ≡ m.now.k }
    requires room { length (text_of (rules_of m.now (state_of s))) ≤ S.room out.old }
    ensures { S.takes out.old out.new (text_of (rules_of m.now (state_of s))) }
{
    for top in 0..SYMBOLS {
        put_top(out, m, s, top);
    }
}

// Those at a state and a top.
fn put_top<S: Sink>(out: &mut S, m: &Model, s: State, top: u8)
    requires fits { Fits m.now }
    requires rounds { s.rounds ≡ m.now.k }
    requires room { length (text_of (rules_at m.now (state_of s) top)) ≤ S.room out.old }
    ensures { S.takes out.old out.new (text_of (rules_at m.now (state_of s) top)) }
{
    if s.counter <= m.k {
        threads::put_taken(out, m, s, top);
        put_pass(out, s, top);
        put_begin(out, &m.b, s, top);
    } else {
        put_close(out, s, top);
    }
}

// The rule that passes the turn on.
fn put_pass<S: Sink>(out: &mut S, s: State, top: u8)
    requires turn { s.counter ≤ s.rounds }
    requires room { length (text_of (pass_of (state_of s) top)) ≤ S.room out.old }
    ensures { S.takes out.old out.new (text_of (pass_of (state_of s) top)) }
{
    if top <= MARK_B {
        let mut to = s;
        to.counter += 1;
        out.rule(Transition {
            from: s,
            top,
            to,
            new: Right::Swap(Symbol(top)),
        });
    }
}

// The rule by which B begins.
fn put_begin<S: Sink>(out: &mut S, b: &Thread, s: State, top: u8)
    requires first { b.now.first.0 ≤ 15 }
    requires room { length (text_of (begin_of b.now (state_of s) top)) ≤ S.room out.old }
    ensures { S.takes out.old out.new (text_of (begin_of b.now (state_of s) top)) }
{
    if s.counter == 1 && top == HELPER {
        out.rule(Transition {
            from: s,
            top,
            to: s,
            new: Right::Push(Symbol(FROM_B + b.first.0), Symbol(MARK_B)),
        });
    }
}

// The rule after all turns of a thread.
fn put_close<S: Sink>(out: &mut S, s: State, top: u8)
    requires { length (text_of (close_of (state_of s) top)) ≤ S.room out.old }
    ensures { S.takes out.old out.new (text_of (close_of (state_of s) top)) }
{
    if top <= MARK_B {
        let mut to = s;
        to.counter = 1;
        out.rule(Transition {
            from: s,
            top,
            to,
            new: Right::Push(Symbol(closing_of(top)), Symbol(top)),
        });
    }
}

// The symbol that comes over a top: the helper over A's, the check symbol over B's.
#[tactic(auto, unfolding(crate::specs::Allowed::owns))]
fn closing_of(top: u8) -> u8
    ensures { result ≡ closing (holder_of top) }
{
    if top < FROM_B || top == MARK_A {
        HELPER
    } else {
        CHECK
    }
}
